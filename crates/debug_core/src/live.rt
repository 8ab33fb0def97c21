//! Carries out lines one by one and answers each as soon as it is read (docs/FORMATS.md, Live).

ghost use Rattle.std.specs.Prelude.{◌≡◌, ◌≤◌, ℕ, List, [], ◌∷◌, ◌++◌, Some, Ok, OnOk, IsErrOf};
ghost use Rattle.text_lines.specs.Text.{lines_of};
ghost use Rattle.outside_io.specs.Outside.{HasCause, Pushes, Rose, WhereSeen, short_name};
ghost use Rattle.board_model.specs.Script.{Scenario};
ghost use Rattle.board_core.specs.Data.{boxed};
ghost use Rattle.outside_io.specs.Seen.{OnlyReads};
ghost use Rattle.debug_core.specs.Answers.{refusal_line};
ghost use Rattle.debug_core.specs.declared.live.LiveFault.TheVariants.{Unread, Failed as Broken};
ghost use Rattle.debug_core.specs.Live.{BreaksTelling, BreaksUnread, TellsLive, after_line, after_lines, line_told, live_said, live_text};
ghost use Rattle.debug_core.specs.Reading.{AsksForFew};
ghost use Rattle.debug_core.specs.Session.{Session};
ghost use Rattle.debug_core.specs.Sessions.{IsSession};
ghost use Rattle.debug_core.specs.UnderWay.{BreaksAmid, HasLived, HasTaken, IsAtLine, IsOneLine, IsTaking, IsUnderWay, TakesOn, first_said};

use crate::command::Command;
use crate::debugger::Debugger;
use crate::line::said;
use crate::text::push_refused;
use arrayvec::ArrayVec;
use outside_io::{Failed, Files, Sink};
use text_lines::Lines;

/// Why a session broke off.
#[derive(Clone, Copy, Debug, PartialEq, Eq)]
pub enum LiveFault {
    /// A read failed.
    Unread,
    /// A push or a flush failed.
    Failed,
}

/// A line has at most this many bytes.
const LONGEST_LINE: usize = 1024;

/// A session takes at most this many bytes.
const MOST_BYTES: u64 = 4_294_967_295;

/// What a line says, or the first of the causes 5 and 1 to 3.
#[tactic(auto, unfolding(crate::specs::Live::live_said))]
fn live_said(line: &[u8]) -> Result<Option<Command>, u8>
    ensures { result ≡ live_said line.now }
{
    if line.len() > LONGEST_LINE {
        Err(5)
    } else {
        said(line)
    }
}

/// The bytes of a line that were read so far, with its CR and LF. If there are too many, only the
/// first ones are kept: enough to show that the line is too long, whatever follows.
#[derive(Drop)]
struct LineUnderWay {
    front: ArrayVec<u8, 1026>,
}

impl LineUnderWay {
    fn new() -> LineUnderWay
        ensures { IsUnderWay result [] }
    {
        LineUnderWay {
            front: ArrayVec::new(),
        }
    }

    /// Adds a byte, which may be the LF at the end of the line.
    fn push(&mut self, byte: u8)
        ensures { (bytes : List ℕ) → IsUnderWay self.old bytes →
            IsUnderWay self.new (bytes ++ byte ∷ []) }
    {
        if !self.front.is_full() {
            self.front.push(byte);
        }
    }

    /// What the line says, or nothing if it has no bytes.
    fn said(&self) -> Result<Option<Command>, u8>
        ensures said { (bytes : List ℕ) → IsUnderWay self.now bytes → IsOneLine bytes →
            result ≡ first_said (lines_of bytes) }
        ensures few { (command : Command) → result ≡ Ok (Some command) → AsksForFew command }
    {
        let mut lines = Lines::of(self.front.as_slice());
        match lines.next() {
            None => Ok(None),
            Some(line) => live_said(line),
        }
    }
}

/// Pushes the answer to a refused line and flushes the sink.
fn refuse<S: Sink>(cause: u8, out: &mut S) -> Result<(), Failed>
    ensures told { Pushes (S.seen out.old).written (S.seen out.new).written (refusal_line cause)
        result }
    ensures cause { HasCause (S.seen out.old).faults (S.seen out.new).faults result }
{
    push_refused(cause, out)?;
    out.flush()
}

impl Debugger {
    /// Carries out what a line says, pushes the answer and flushes the sink. It does nothing if the
    /// session is over.
    fn answer_line<S: Sink>(
        &mut self,
        said: Result<Option<Command>, u8>,
        out: &mut S,
    ) -> Result<(), Failed>
        requires session { (x : Scenario) × (s : Session) × IsSession (boxed shown) x self.old s }
        requires few { (command : Command) → said ≡ Ok (Some command) → AsksForFew command }
        ensures told { (x : Scenario) (s : Session) → IsSession (boxed shown) x self.old s →
            Pushes (S.seen out.old).written (S.seen out.new).written (line_told x s said) result }
        ensures session { (x : Scenario) (s : Session) → IsSession (boxed shown) x self.old s →
            IsSession (boxed shown) x self.new (after_line x s said) }
        ensures cause { HasCause (S.seen out.old).faults (S.seen out.new).faults result }
    {
        if self.is_over {
            return Ok(());
        }
        match said {
            Err(cause) => refuse(cause, out),
            Ok(None) => Ok(()),
            Ok(Some(command)) => self.command(&command, out),
        }
    }

    /// Answers the line under way and begins the next one.
    fn take_line<S: Sink>(
        &mut self,
        under_way: &mut LineUnderWay,
        out: &mut S,
    ) -> Result<(), Failed>
        requires { (x : Scenario) × (s : Session) × IsSession (boxed shown) x self.old s }
        ensures told { (x : Scenario) (s : Session) (bytes : List ℕ) →
            IsAtLine (boxed shown) x s bytes self.old under_way.old →
            Pushes (S.seen out.old).written (S.seen out.new).written (live_text x s bytes) result }
        ensures session { (x : Scenario) (s : Session) (bytes : List ℕ) →
            IsAtLine (boxed shown) x s bytes self.old under_way.old →
            IsSession (boxed shown) x self.new (after_lines x s (lines_of bytes)) }
        ensures next { IsUnderWay under_way.new [] }
        ensures cause { HasCause (S.seen out.old).faults (S.seen out.new).faults result }
    {
        let said = under_way.said();
        under_way.front.clear();
        self.answer_line(said, out)
    }

    /// Takes one byte of the text. An LF ends the line under way.
    fn take_byte<S: Sink>(
        &mut self,
        byte: u8,
        under_way: &mut LineUnderWay,
        out: &mut S,
    ) -> Result<(), Failed>
        requires { IsTaking (boxed shown) (S.seen out.old) self.old under_way.old }
        ensures amid { TakesOn (boxed shown) (byte ∷ []) (S.seen out.old) (S.seen out.new) self.old
            self.new under_way.old under_way.new result }
        ensures failed { BreaksAmid (boxed shown) (byte ∷ []) (S.seen out.old) (S.seen out.new)
            self.old under_way.old result }
        ensures cause { HasCause (S.seen out.old).faults (S.seen out.new).faults result }
    {
        under_way.push(byte);
        if byte == b'\n' {
            self.take_line(under_way, out)
        } else {
            Ok(())
        }
    }

    /// Takes what one read gave: lines, and parts of lines.
    fn take_piece<S: Sink>(
        &mut self,
        piece: &[u8],
        under_way: &mut LineUnderWay,
        out: &mut S,
    ) -> Result<(), Failed>
        requires { IsTaking (boxed shown) (S.seen out.old) self.old under_way.old }
        ensures amid { TakesOn (boxed shown) piece.now (S.seen out.old) (S.seen out.new) self.old
            self.new under_way.old under_way.new result }
        ensures failed { BreaksAmid (boxed shown) piece.now (S.seen out.old) (S.seen out.new)
            self.old under_way.old result }
        ensures cause { HasCause (S.seen out.old).faults (S.seen out.new).faults result }
    {
        for byte in piece {
            self.take_byte(*byte, under_way, out)?;
        }
        Ok(())
    }

    /// Takes the reads of a file, one after the other, until the file ends or the session is over.
    /// Afterwards the bytes after the last LF are under way.
    fn take_pieces<F: Files, S: Sink>(
        &mut self,
        files: &mut F,
        name: &str,
        under_way: &mut LineUnderWay,
        out: &mut S,
    ) -> Result<(), LiveFault>
        requires session { (x : Scenario) × (s : Session) × IsSession (boxed shown) x self.old s }
        requires none { IsUnderWay under_way.old [] }
        ensures amid { (x : Scenario) (s : Session) → IsSession (boxed shown) x self.old s →
            OnOk result (
            HasTaken (boxed shown) x s name.now (F.seen files.old) (F.seen files.new)
            (S.seen out.old) (S.seen out.new) self.new under_way.new) }
        ensures unread { (x : Scenario) (s : Session) → IsSession (boxed shown) x self.old s →
            IsErrOf result Unread →
            BreaksUnread x s name.now (F.seen files.old) (F.seen files.new) (S.seen out.old)
            (S.seen out.new) }
        ensures failed { (x : Scenario) (s : Session) → IsSession (boxed shown) x self.old s →
            IsErrOf result Broken →
            BreaksTelling x s name.now (F.seen files.old) (S.seen out.old) (S.seen out.new) }
        ensures rose { IsErrOf result Unread →
            Rose (F.seen files.old).read_faults (F.seen files.new).read_faults }
        ensures named { IsErrOf result Unread →
            WhereSeen (F.seen files.new).last_failing (λ n. n ≡ short_name name.now) }
        ensures fault { IsErrOf result Broken →
            Rose (S.seen out.old).faults (S.seen out.new).faults }
        ensures later { (S.seen out.old).faults ≤ (S.seen out.new).faults }
        ensures only_reads { OnlyReads (F.seen files.old) (F.seen files.new) }
    {
        let mut buf = [0u8; 4096];
        let mut place = 0u64;
        'pieces: while place < MOST_BYTES {
            if self.is_over {
                return Ok(());
            }
            let room = buf.len().min((MOST_BYTES - place) as usize);
            let Ok(count) = files.read(name, place, &mut buf[..room]) else {
                return Err(LiveFault::Unread);
            };
            if count == 0 {
                return Ok(());
            }
            match self.take_piece(&buf[..count], under_way, out) {
                Err(_) => return Err(LiveFault::Failed),
                Ok(()) => place += count as u64,
            }
        }
        Ok(())
    }

    /// Carries out the lines of a file one by one as they are read. It pushes and flushes the
    /// answer to each line before it reads more (docs/FORMATS.md, Live). After `quit` it reads no
    /// more. The answer to a refused line is its cause, and such a line changes nothing. Up to
    /// 4,294,967,295 bytes are read. It takes no memory.
    ///
    /// # Errors
    ///
    /// `Unread` if a read fails; each line that had ended by then is answered. `Failed` if a push
    /// or a flush fails. No further line is carried out.
    pub fn carry_out_live<F: Files, S: Sink>(
        &mut self,
        files: &mut F,
        name: &str,
        out: &mut S,
    ) -> Result<(), LiveFault>
        requires { (x : Scenario) × (s : Session) × IsSession (boxed shown) x self.old s }
        ensures told { (x : Scenario) (s : Session) → IsSession (boxed shown) x self.old s →
            OnOk result (
            TellsLive x s name.now (F.seen files.old) (F.seen files.new) (S.seen out.old)
            (S.seen out.new)) }
        ensures session { (x : Scenario) (s : Session) → IsSession (boxed shown) x self.old s →
            OnOk result (HasLived (boxed shown) x s ((F.seen files.old).contents name.now)
            self.new) }
        ensures unread { (x : Scenario) (s : Session) → IsSession (boxed shown) x self.old s →
            IsErrOf result Unread →
            BreaksUnread x s name.now (F.seen files.old) (F.seen files.new) (S.seen out.old)
            (S.seen out.new) }
        ensures failed { (x : Scenario) (s : Session) → IsSession (boxed shown) x self.old s →
            IsErrOf result Broken →
            BreaksTelling x s name.now (F.seen files.old) (S.seen out.old) (S.seen out.new) }
        ensures rose { IsErrOf result Unread →
            Rose (F.seen files.old).read_faults (F.seen files.new).read_faults }
        ensures named { IsErrOf result Unread →
            WhereSeen (F.seen files.new).last_failing (λ n. n ≡ short_name name.now) }
        ensures fault { IsErrOf result Broken →
            Rose (S.seen out.old).faults (S.seen out.new).faults }
        ensures later { (S.seen out.old).faults ≤ (S.seen out.new).faults }
        ensures only_reads { OnlyReads (F.seen files.old) (F.seen files.new) }
    {
        let mut under_way = LineUnderWay::new();
        self.take_pieces(files, name, &mut under_way, out)?;
        match self.take_line(&mut under_way, out) {
            Err(_) => Err(LiveFault::Failed),
            Ok(()) => Ok(()),
        }
    }
}
