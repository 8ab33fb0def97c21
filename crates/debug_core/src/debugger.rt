//! `Debugger`: carries out commands one after the other.

ghost use Rattle.std.specs.Prelude.{ℕ, ◌≡◌, ◌≤◌, ◌<◌, ◌+◌, ◌-◌, ◌==◌, ◌||◌, find, map, min, IfOk};
ghost use Rattle.std.specs.Option.{option_map};
ghost use Rattle.task_table.specs.kept.Parts.{line_setup};
ghost use Rattle.task_table.specs.model.State.{State};
ghost use Rattle.mem_banks.specs.Memory.{byte_at};
ghost use Rattle.outside_io.specs.Outside.{Pushes, HasCause};
ghost use Rattle.board_model.specs.Script.{Scenario, start_of};
ghost use Rattle.board_core.specs.Data.{boxed};
ghost use Rattle.board_core.specs.Stands.{Stands};
ghost use Rattle.debug_core.specs.Answers.{answer, at_turn, bytes_from, device_of, irq_of, registers_of, task_of, told, told_before, told_from};
ghost use Rattle.debug_core.specs.Listed.{listed};
ghost use Rattle.debug_core.specs.Reading.{AsksForFew};
ghost use Rattle.debug_core.specs.Runs.{forward, state_at};
ghost use Rattle.debug_core.specs.Session.{Session, after, opened};
ghost use Rattle.debug_core.specs.Sessions.{IsSession};
ghost use Rattle.debug_core.specs.Times.{IsAt};

use crate::answer::Answer;
use crate::breakpoints::{Breakpoints, clear, set};
use crate::command::{Command, Sought};
use crate::commands::Commands;
use crate::replay::Replay;
use crate::text::push_answer;
use arrayvec::ArrayVec;
use board_core::Board;
use board_run::push_notes;
use outside_io::{Failed, Sink};
use std::alloc::{AllocError, Global};
use task_table::LineStart;
use trace_text::TurnLines;

/// A run has at most this many turns.
const TURNS: u32 = 1_000_000_000;

/// The turn that is `turns` turns before this one, or the start.
fn earlier(turn: u32, turns: u32) -> u32
    ensures { result ≡ turn - turns }
{
    turn.saturating_sub(turns)
}

/// The answer that says where the cursor is.
fn here(replay: &Replay) -> Answer
    requires { (x : Scenario) × (turn : ℕ) × IsAt (boxed shown) x replay.now turn }
    ensures { (x : Scenario) (turn : ℕ) → IsAt (boxed shown) x replay.now turn →
        result ≡ at_turn x turn }
{
    Answer::At {
        turn: replay.board.turns(),
        now: replay.board.now(),
        end: replay.ending(TURNS),
    }
}

/// Goes to a turn, forwards or back, or to the end of the run if that comes first.
fn to_turn(replay: &mut Replay, turn: u32)
    requires from { (x : Scenario) × (cursor : ℕ) × IsAt (boxed shown) x replay.old cursor }
    requires few { turn ≤ 1000000000 }
    ensures { (x : Scenario) (cursor : ℕ) → IsAt (boxed shown) x replay.old cursor →
        IsAt (boxed shown) x replay.new (forward x 0 turn) }
{
    if turn < replay.board.turns() {
        replay.back_to(turn);
    } else {
        replay.go_to(turn);
    }
}

fn registers(replay: &Replay, task: u16) -> Answer
    ensures { (x : Scenario) (turn : ℕ) → IsAt (boxed shown) x replay.now turn →
        result ≡ registers_of (state_at x turn) task }
{
    match replay.board.task(usize::from(task)) {
        None => Answer::Absent,
        Some(view) => {
            let words = view.regs;
            Answer::Registers {
                words,
                flags: view.flags,
            }
        }
    }
}

fn task(replay: &Replay, task: u16) -> Answer
    ensures { (x : Scenario) (turn : ℕ) → IsAt (boxed shown) x replay.now turn →
        result ≡ task_of (state_at x turn) task }
{
    match replay.board.task(usize::from(task)) {
        None => Answer::Absent,
        Some(view) => Answer::Task { task, view },
    }
}

/// The owner of an interrupt line, as the image says.
fn owner_of(owners: &[LineStart], line: u8) -> Option<LineStart>
    ensures { option_map line_setup result
        ≡ find (λ l. l.line == line) (map line_setup owners.now) }
{
    for start in owners {
        if start.line == line {
            return Some(*start);
        }
    }
    None
}

/// Whether an interrupt is pending on a line: one is held there, or the line's device asks for one.
fn is_pending(held: bool, asks: bool) -> bool
    ensures { result ≡ (held || asks) }
{
    held || asks
}

fn irq(board: &Board, line: u8) -> Answer
    requires { line < 64 }
    ensures { (x : Scenario) (s : State) → Stands (boxed shown) x board.now s →
        result ≡ irq_of x.setup s line }
{
    let Some(owner) = owner_of(board.owners(), line) else {
        return Answer::Absent;
    };
    let asks = board.asks_at(owner.device);
    let Some((enabled, held)) = board.irq_line(usize::from(line)) else {
        return Answer::Absent;
    };
    Answer::Irq {
        line,
        owner: owner.task,
        bits: owner.bits,
        enabled,
        pending: is_pending(held, asks),
    }
}

fn device(board: &Board, device: u8) -> Answer
    ensures { (x : Scenario) (s : State) → Stands (boxed shown) x board.now s →
        result ≡ device_of s device }
{
    match board.device(usize::from(device)) {
        None => Answer::Absent,
        Some(view) => Answer::Device {
            device,
            kind: view.kind,
            base: view.base,
            count: view.count,
            queue: view.queue,
        },
    }
}

/// The byte at the address `at + k`.
fn byte_behind(board: &Board, at: u32, k: u8) -> Option<u8>
    ensures { (x : Scenario) (s : State) → Stands (boxed shown) x board.now s →
        result ≡ byte_at s.memory (at + k) }
{
    board.byte(at.checked_add(u32::from(k))?)
}

fn bytes(board: &Board, at: u32, len: u8) -> Answer
    requires few { len ≤ 64 }
    ensures { (x : Scenario) (s : State) → Stands (boxed shown) x board.now s →
        result ≡ bytes_from s.memory at len }
{
    let mut bytes = ArrayVec::new();
    for k in 0..len {
        match byte_behind(board, at, k) {
            None => return Answer::Absent,
            Some(byte) => bytes.push(byte),
        }
    }
    Answer::Bytes { at, bytes }
}

/// A run that can go forwards and back. It is at a turn, the cursor, and stops when a task is at a
/// breakpoint (docs/FORMATS.md, Commands). It keeps checkpoints of the turns where it has been, and
/// starts from one of them to go back. No answer depends on the checkpoints.
#[derive(Drop)]
pub struct Debugger {
    replay: Replay,
    breakpoints: Breakpoints,
    pub(crate) is_over: bool,
}

impl Debugger {
    /// Opens a session with a run at its start. The board is at the start of the run. All memory is
    /// taken here: room for 64 states.
    ///
    /// # Errors
    ///
    /// Only if memory runs out. The board is dropped then.
    pub fn open(alloc: Global, board: Board) -> Result<Debugger, AllocError>
        requires { (x : Scenario) × Stands (boxed shown) x board (start_of x) }
        ensures { (x : Scenario) → Stands (boxed shown) x board (start_of x) →
            IfOk result (λ d. IsSession (boxed shown) x d opened) }
    {
        Ok(Debugger {
            replay: Replay::open(alloc, board)?,
            breakpoints: ArrayVec::new(),
            is_over: false,
        })
    }

    /// The turn that is `turns` turns after the cursor, or the last one that a run may have.
    fn limit(&self, turns: u32) -> u32
        ensures limit { (x : Scenario) (s : Session) → IsSession (boxed shown) x self.now s →
            result ≡ min (s.cursor + turns) 1000000000 }
        ensures few { result ≤ 1000000000 }
    {
        self.replay.board.turns().saturating_add(turns).min(TURNS)
    }

    fn step(&mut self, turns: u32) -> Answer
        requires { (x : Scenario) × (s : Session) × IsSession (boxed shown) x self.old s }
        ensures answer { (x : Scenario) (s : Session) → IsSession (boxed shown) x self.old s →
            result ≡ answer x s (Command.Step turns) }
        ensures session { (x : Scenario) (s : Session) → IsSession (boxed shown) x self.old s →
            IsSession (boxed shown) x self.new (after x s (Command.Step turns)) }
    {
        let to = self.limit(turns);
        self.replay.go_to(to);
        here(&self.replay)
    }

    fn back(&mut self, turns: u32) -> Answer
        requires { (x : Scenario) × (s : Session) × IsSession (boxed shown) x self.old s }
        ensures answer { (x : Scenario) (s : Session) → IsSession (boxed shown) x self.old s →
            result ≡ answer x s (Command.Back turns) }
        ensures session { (x : Scenario) (s : Session) → IsSession (boxed shown) x self.old s →
            IsSession (boxed shown) x self.new (after x s (Command.Back turns)) }
    {
        let to = earlier(self.replay.board.turns(), turns);
        self.replay.back_to(to);
        here(&self.replay)
    }

    fn go(&mut self, turns: u32) -> Answer
        requires { (x : Scenario) × (s : Session) × IsSession (boxed shown) x self.old s }
        ensures answer { (x : Scenario) (s : Session) → IsSession (boxed shown) x self.old s →
            result ≡ answer x s (Command.Go turns) }
        ensures session { (x : Scenario) (s : Session) → IsSession (boxed shown) x self.old s →
            IsSession (boxed shown) x self.new (after x s (Command.Go turns)) }
    {
        let to = self.limit(turns);
        match self.replay.go_to_hit(self.breakpoints.as_slice(), to) {
            None => here(&self.replay),
            Some((task, at)) => Answer::Hit {
                turn: self.replay.board.turns(),
                task,
                at,
            },
        }
    }

    fn at(&mut self, turn: u32) -> Answer
        requires session { (x : Scenario) × (s : Session) × IsSession (boxed shown) x self.old s }
        requires few { turn ≤ 1000000000 }
        ensures answer { (x : Scenario) (s : Session) → IsSession (boxed shown) x self.old s →
            result ≡ answer x s (Command.At turn) }
        ensures session { (x : Scenario) (s : Session) → IsSession (boxed shown) x self.old s →
            IsSession (boxed shown) x self.new (after x s (Command.At turn)) }
    {
        to_turn(&mut self.replay, turn);
        here(&self.replay)
    }

    fn go_for(&mut self, turns: u32, sought: &Sought) -> Answer
        requires { (x : Scenario) × (s : Session) × IsSession (boxed shown) x self.old s }
        ensures answer { (x : Scenario) (s : Session) → IsSession (boxed shown) x self.old s →
            result ≡ answer x s (Command.GoFor turns sought.now) }
        ensures session { (x : Scenario) (s : Session) → IsSession (boxed shown) x self.old s →
            IsSession (boxed shown) x self.new (after x s (Command.GoFor turns sought.now)) }
    {
        if !self.replay.can_find(sought) {
            return Answer::Absent;
        }
        let to = self.limit(turns);
        match self.replay.go_for(sought, to) {
            None => here(&self.replay),
            Some(answer) => answer,
        }
    }

    fn back_for(&mut self, turns: u32, sought: &Sought) -> Answer
        requires { (x : Scenario) × (s : Session) × IsSession (boxed shown) x self.old s }
        ensures answer { (x : Scenario) (s : Session) → IsSession (boxed shown) x self.old s →
            result ≡ answer x s (Command.BackFor turns sought.now) }
        ensures session { (x : Scenario) (s : Session) → IsSession (boxed shown) x self.old s →
            IsSession (boxed shown) x self.new (after x s (Command.BackFor turns sought.now)) }
    {
        if !self.replay.can_find(sought) {
            return Answer::Absent;
        }
        let to = earlier(self.replay.board.turns(), turns);
        match self.replay.back_for(sought, to) {
            None => here(&self.replay),
            Some(answer) => answer,
        }
    }

    /// Carries out a command and returns its answer.
    fn carry_out(&mut self, command: &Command) -> Answer
        requires session { (x : Scenario) × (s : Session) × IsSession (boxed shown) x self.old s }
        requires few { AsksForFew command.now }
        ensures answer { (x : Scenario) (s : Session) → IsSession (boxed shown) x self.old s →
            result ≡ answer x s command.now }
        ensures session { (x : Scenario) (s : Session) → IsSession (boxed shown) x self.old s →
            IsSession (boxed shown) x self.new (after x s command.now) }
    {
        match command {
            Command::Break { at } => set(&mut self.breakpoints, *at),
            Command::Clear { at } => clear(&mut self.breakpoints, *at),
            Command::Step { turns } => self.step(*turns),
            Command::Back { turns } => self.back(*turns),
            Command::Go { turns } => self.go(*turns),
            Command::At { turn } => self.at(*turn),
            Command::GoFor { turns, sought } => self.go_for(*turns, sought),
            Command::BackFor { turns, sought } => self.back_for(*turns, sought),
            Command::Notes => Answer::Absent,
            Command::Help => Answer::Help,
            Command::Quit => {
                self.is_over = true;
                Answer::Over
            }
            Command::Regs { task } => registers(&self.replay, *task),
            Command::Task { task: i } => task(&self.replay, *i),
            Command::Irq { line } => irq(&self.replay.board, *line),
            Command::Device { device: k } => device(&self.replay.board, *k),
            Command::Mem { at, len } => bytes(&self.replay.board, *at, *len),
        }
    }

    /// Pushes the notes of the turn before the cursor, with its instruction, one push for each
    /// line.
    fn push_notes<S: Sink>(&mut self, out: &mut S) -> Result<(), Failed>
        requires { (x : Scenario) × (s : Session) × IsSession (boxed shown) x self.old s }
        ensures told { (x : Scenario) (s : Session) → IsSession (boxed shown) x self.old s →
            Pushes (S.seen out.old).written (S.seen out.new).written (told_before x s.cursor)
            result }
        ensures session { (x : Scenario) (s : Session) → IsSession (boxed shown) x self.old s →
            IsSession (boxed shown) x self.new s }
        ensures cause { HasCause (S.seen out.old).faults (S.seen out.new).faults result }
    {
        match self.replay.board.turns().checked_sub(1) {
            None => push_answer(&Answer::Absent, out),
            Some(turn) => {
                self.replay.back_to(turn);
                self.replay.make_turn();
                let mut lines = TurnLines::new(turn);
                push_notes(turn, self.replay.board.notes(), &mut lines, out)
            }
        }
    }

    fn push_told<S: Sink>(&mut self, command: &Command, out: &mut S) -> Result<(), Failed>
        requires session { (x : Scenario) × (s : Session) × IsSession (boxed shown) x self.old s }
        requires few { AsksForFew command.now }
        ensures told { (x : Scenario) (s : Session) → IsSession (boxed shown) x self.old s →
            Pushes (S.seen out.old).written (S.seen out.new).written (told x s command.now) result }
        ensures session { (x : Scenario) (s : Session) → IsSession (boxed shown) x self.old s →
            IsSession (boxed shown) x self.new (after x s command.now) }
        ensures cause { HasCause (S.seen out.old).faults (S.seen out.new).faults result }
    {
        if let Command::Notes = command {
            return self.push_notes(out);
        }
        let answer = self.carry_out(command);
        push_answer(&answer, out)
    }

    /// Carries out a command, pushes its answer, one push for each line, and flushes the sink. It
    /// takes no memory.
    ///
    /// # Errors
    ///
    /// Only if a push or the flush fails. The command is carried out all the same.
    pub fn command<S: Sink>(&mut self, command: &Command, out: &mut S) -> Result<(), Failed>
        requires session { (x : Scenario) × (s : Session) × IsSession (boxed shown) x self.old s }
        requires few { AsksForFew command.now }
        ensures told { (x : Scenario) (s : Session) → IsSession (boxed shown) x self.old s →
            Pushes (S.seen out.old).written (S.seen out.new).written (told x s command.now) result }
        ensures session { (x : Scenario) (s : Session) → IsSession (boxed shown) x self.old s →
            IsSession (boxed shown) x self.new (after x s command.now) }
        ensures cause { HasCause (S.seen out.old).faults (S.seen out.new).faults result }
    {
        self.push_told(command, out)?;
        out.flush()
    }

    /// Carries out the commands of a text, one after the other, up to the first `quit`. It pushes
    /// and flushes the answer of each command before it carries out the next one. It takes no
    /// memory.
    ///
    /// # Errors
    ///
    /// Only if a push or a flush fails. No further command is carried out.
    pub fn carry_out_all<S: Sink>(&mut self, commands: &Commands, out: &mut S) -> Result<(), Failed>
        requires session { (x : Scenario) × (s : Session) × IsSession (boxed shown) x self.old s }
        ensures told { (x : Scenario) (s : Session) → IsSession (boxed shown) x self.old s →
            Pushes (S.seen out.old).written (S.seen out.new).written
            (told_from x s (listed commands.now)) result }
        ensures cause { HasCause (S.seen out.old).faults (S.seen out.new).faults result }
    {
        for command in commands.as_slice() {
            if self.is_over {
                return Ok(());
            }
            self.command(command, out)?;
        }
        Ok(())
    }
}
