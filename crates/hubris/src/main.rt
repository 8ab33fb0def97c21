//! The program: hands the words, the real files and the standard output to the top call, whose
//! result is the exit status.
#![tactic(auto)]

use devices::{Console, Device, Port};
use outside_io::{Files, HostFiles, HostSink, Sink};
use std::alloc::{AllocError, Global};
use std::io::{BufWriter, ErrorKind};
use std::process::ExitCode;
use std::{env, io};
use trace_cli::hubris_main_with;

// The words of the command line, the program's name first. If a word is not UTF-8, there is no
// command: it is as if there were no words.
fn words(rt: &HostRuntime) -> Result<Vec<String>, AllocError> {
    let mut words = Vec::new(rt.alloc());
    match env::args(rt) {
        Ok(args) => {
            for word in args {
                words.push(word)?;
            }
        }
        Err(error) => {
            if error.kind() == ErrorKind::OutOfMemory {
                return Err(AllocError);
            }
        }
    }
    Ok(words)
}

/// The exit status for the words. The runs have a console and a port at the first device addresses.
fn status<F: Files, S: Sink>(
    alloc: Global,
    words: &[String],
    files: &mut F,
    out: &mut S,
) -> Result<u8, AllocError> {
    let mut devices: Vec<Box<dyn Device>> = Vec::new(alloc);
    devices.push(Box::new(alloc, Console::new(0x4000_0000))?)?;
    devices.push(Box::new(alloc, Port::new(0x4000_1000))?)?;
    Ok(hubris_main_with(alloc, words, files, out, devices))
}

fn main(rt: HostRuntime) -> ExitCode {
    let Ok(words) = words(&rt) else {
        return ExitCode::from(5);
    };
    // Lines are written many at a time. One system call for each line would be most of the time of
    // `--all`. A run passes on what is held back from time to time, and the debugger does after
    // each answer.
    let Ok(writer) = BufWriter::with_capacity(rt.alloc(), 65_536, io::writer(&rt)) else {
        return ExitCode::from(5);
    };
    let mut out = HostSink::new(writer);
    let mut files = HostFiles::new(&rt);
    let Ok(status) = status(rt.alloc(), &words, &mut files, &mut out) else {
        return ExitCode::from(5);
    };
    if status != 4 && out.flush().is_ok() {
        return ExitCode::from(status);
    }
    // A writer that is dropped tries again to write what it holds back. It is taken apart instead,
    // so that nothing is written after a failure.
    let (_, _held) = out.into_output().into_parts();
    ExitCode::from(4)
}
