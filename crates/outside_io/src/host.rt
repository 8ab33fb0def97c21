//! Real files and a real output. The contracts of the files show no contents and no failing name.
//! The output shows what its writer shows.
ghost use Rattle.std.specs.Prelude.{◌≡◌, None, IfOk, IsSomeAnd, IsTrue, OnErr, Some, ◌≤◌, ◌+◌, length};
ghost use Rattle.std.specs.Io.KnownBytes.{Keeps};
ghost use Rattle.outside_io.specs.Outside.{CountsFailure, Gives, HasCause, Pushes, Reads};
ghost use Rattle.outside_io.specs.Host.{counts_of, out_of, faults_of};
ghost use Rattle.outside_io.specs.Open.{IsNamed, StandsAt};

use crate::replacing::put_file;
use crate::{Failed, Files, Sink};
use std::alloc::Global;
use std::io::{ErrorKind, Read, Seek, SeekFrom, Write};
use std::os::unix::fs::{FileTypeExt, MetadataExt};
use std::{fs, io, rt};

// A file that is open for reads: its name, if there was memory for it, and its position, if that
// fits 64 bits. A file without a name is read once.
#[derive(Drop)]
struct OpenFile<F> {
    name: Option<String>,
    file: F,
    place: Option<u64>,
}

impl<F: Read + Seek> OpenFile<F> {
    // A file that was opened under a name, at position 0.
    fn new(alloc: Global, name: &str, file: F) -> Self
        ensures file { result.file ≡ file }
        ensures name { IsNamed result name.now }
        ensures place { result.place ≡ Some 0 }
    {
        OpenFile {
            name: String::from_str(alloc, name).ok(),
            file,
            place: Some(0),
        }
    }

    // Whether it is known to have this name.
    fn has_name(&self, name: &str) -> bool
        ensures { IsTrue result → IsNamed self.now name.now }
    {
        match &self.name {
            Some(own) => own.as_str() == name,
            None => false,
        }
    }

    // Reads from a position on. If the file is at this position there is no seek, so a file that
    // cannot seek, such as a pipe, can be read from start to end.
    fn read_at(&mut self, at: u64, buf: &mut [u8]) -> io::Result<usize>
        ensures bound { IfOk result (λ n. n ≤ length buf.new) }
        ensures place { IfOk result (λ n. StandsAt self.new (at + n)) }
        ensures name { self.new.name ≡ self.old.name }
    {
        if self.place != Some(at) {
            self.file.seek(SeekFrom::Start(at))?;
        }
        let count = self.file.read(buf)?;
        self.place = at.checked_add(count as u64);
        Ok(count)
    }
}

// A pipe, by its device and its inode.
#[derive(Clone, Copy, PartialEq, Eq)]
struct Pipe {
    dev: u64,
    ino: u64,
}

/// The files of the machine, by path. The file that was read last stays open. So reads that go on
/// through a file open it once, and a file that cannot seek, such as a pipe, can be read. A pipe is
/// opened once, whatever its names, since what was read from it is gone. There are three counts of
/// 64 bits, which saturate: failed reads, failed puts, and the bytes that reads gave.
#[derive(Drop)]
pub struct HostFiles<R: rt::Files> {
    rt: R,
    kept: Option<OpenFile<R::File>>,
    pipes: Vec<Pipe>,
    read_faults: u64,
    put_faults: u64,
    given: u64,
}

impl<R: rt::Files + AllocGlobal> HostFiles<R> {
    /// The files of this machine, with all counts at 0.
    pub fn new(rt: R) -> Self
        ensures { counts_of result ≡ record { read_faults = 0; put_faults = 0; given = 0 } }
    {
        let pipes = Vec::new(rt.alloc());
        HostFiles {
            rt,
            kept: None,
            pipes,
            read_faults: 0,
            put_faults: 0,
            given: 0,
        }
    }

    // Remembers a pipe that is opened, and refuses one that was. If there is no memory for it, it
    // is not remembered.
    fn pass_pipe(&mut self, name: &str) -> io::Result<()>
        ensures kept { self.new.kept ≡ self.old.kept }
        ensures counts { counts_of self.new ≡ counts_of self.old }
    {
        let metadata = fs::metadata(&self.rt, name)?;
        if !metadata.file_type().is_fifo() {
            return Ok(());
        }
        let pipe = Pipe {
            dev: metadata.dev(),
            ino: metadata.ino(),
        };
        if self.pipes.contains(&pipe) {
            return Err(io::Error::from(ErrorKind::NotSeekable));
        }
        let _ = self.pipes.push(pipe);
        Ok(())
    }

    // The file under a name: the one that was read last, if it has this name, or else one that is
    // opened now. It is taken out until it is put back.
    fn take(&mut self, name: &str) -> io::Result<OpenFile<R::File>>
        ensures named { IfOk result (λ file. IsNamed file name.now) }
        ensures gone { self.new.kept ≡ None }
        ensures counts { counts_of self.new ≡ counts_of self.old }
    {
        if let Some(file) = self.kept.take() {
            if file.has_name(name) {
                return Ok(file);
            }
        }
        self.pass_pipe(name)?;
        let file = fs::open(&self.rt, name)?;
        Ok(OpenFile::new(self.rt.alloc(), name, file))
    }

    // Reads from a place on. The file is kept unless the read failed.
    fn read_at(&mut self, name: &str, at: u64, buf: &mut [u8]) -> io::Result<usize>
        ensures bound { IfOk result (λ n. n ≤ length buf.new) }
        ensures kept { IfOk result (λ n. IsSomeAnd self.new.kept
            (λ file. IsNamed file name.now × StandsAt file (at + n))) }
        ensures gone { OnErr result (self.new.kept ≡ None) }
        ensures counts { counts_of self.new ≡ counts_of self.old }
    {
        let mut file = self.take(name)?;
        let count = file.read_at(at, buf)?;
        self.kept = Some(file);
        Ok(count)
    }
}

impl<R: rt::Files + AllocGlobal> Files for HostFiles<R> {
    ghost seen = { λ f. record {
      contents = λ _. None;
      read_faults = f.read_faults;
      put_faults = f.put_faults;
      given = f.given;
      last_failing = None;
    } };

    /// One read of the file at the path, from the position on.
    fn read(&mut self, name: &str, at: u64, buf: &mut [u8]) -> Result<usize, Failed>
        ensures bytes { Reads None at buf.new result }
        ensures count { Gives (counts_of self.old).given (counts_of self.new).given result }
        ensures grown { (counts_of self.old).given ≤ (counts_of self.new).given }
        ensures cause { HasCause (counts_of self.old).read_faults (counts_of self.new).read_faults
            result }
        ensures puts { (counts_of self.new).put_faults ≡ (counts_of self.old).put_faults }

        ensures faults { CountsFailure (counts_of self.old).read_faults
            (counts_of self.new).read_faults result }
    {
        match self.read_at(name, at, buf) {
            Ok(count) => {
                self.given = self.given.saturating_add(count as u64);
                Ok(count)
            }
            Err(_) => {
                self.read_faults = self.read_faults.saturating_add(1);
                Err(Failed)
            }
        }
    }

    /// Replaces the contents of the file at the path by all bytes, or fails and leaves what was
    /// there. A link, a device or a pipe is written to instead, and may have taken a part of the
    /// bytes at a failure. The file that was read last is closed before that, so a later read gives
    /// what was put.
    fn put(&mut self, name: &str, bytes: &[u8]) -> Result<(), Failed>
        ensures cause { HasCause (counts_of self.old).put_faults (counts_of self.new).put_faults
            result }
        ensures count { (counts_of self.new).given ≡ (counts_of self.old).given }
        ensures reads { (counts_of self.new).read_faults ≡ (counts_of self.old).read_faults }

        ensures gone { self.new.kept ≡ None }
        ensures faults { CountsFailure (counts_of self.old).put_faults
            (counts_of self.new).put_faults result }
    {
        self.kept = None;
        match put_file(&self.rt, name, bytes) {
            Ok(()) => Ok(()),
            Err(_) => {
                self.put_faults = self.put_faults.saturating_add(1);
                Err(Failed)
            }
        }
    }
}

/// An output, such as standard output. It shows what its writer shows. A count of 64 bits rises by
/// one at each failed push.
#[derive(Drop)]
pub struct HostSink<W> {
    out: W,
    faults: u64,
}

impl<W: Write> HostSink<W> {
    /// Pushes go to the output. None has failed yet.
    pub fn new(out: W) -> Self
        ensures output { out_of result ≡ out }
        ensures faults { faults_of result ≡ 0 }
    {
        HostSink { out, faults: 0 }
    }

    /// The output, with the bytes that it has buffered.
    pub fn into_output(self) -> W
        ensures { result ≡ out_of self }
    {
        self.out
    }
}

// Writes all bytes in order. A write that takes no byte is an error.
fn write_whole<W: Write>(out: &mut W, bytes: &[u8]) -> Result<(), Failed>
    ensures { Pushes (W.contents out.old) (W.contents out.new) bytes.now result }
{
    let mut rest = bytes;
    'writes: while !rest.is_empty() {
        match out.write(rest) {
            Ok(0) => return Err(Failed),
            Ok(count) => rest = &rest[count..],
            Err(_) => return Err(Failed),
        }
    }
    Ok(())
}

impl<W: Write> Sink for HostSink<W> {
    ghost seen = { λ s. record { written = W.contents s.out; faults = s.faults } };

    /// Writes the whole piece to the output. If the output shows its bytes, the piece is among them
    /// then.
    fn push(&mut self, piece: &[u8]) -> Result<(), Failed>
        ensures bytes { Pushes (W.contents (out_of self.old)) (W.contents (out_of self.new))
            piece.now result }
        ensures cause { HasCause (faults_of self.old) (faults_of self.new) result }

        ensures counted { CountsFailure (faults_of self.old) (faults_of self.new) result }
    {
        let written = write_whole(&mut self.out, piece);
        if written.is_err() {
            self.faults = self.faults.saturating_add(1);
        }
        written
    }

    /// A failure is counted as a failed push.
    fn flush(&mut self) -> Result<(), Failed>
        ensures written { Keeps (W.contents (out_of self.old)) (W.contents (out_of self.new)) }
        ensures cause { HasCause (faults_of self.old) (faults_of self.new) result }

        ensures counted { CountsFailure (faults_of self.old) (faults_of self.new) result }
    {
        match self.out.flush() {
            Ok(()) => Ok(()),
            Err(_) => {
                self.faults = self.faults.saturating_add(1);
                Err(Failed)
            }
        }
    }
}
