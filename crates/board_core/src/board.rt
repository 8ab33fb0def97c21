//! The board and one turn of it.
ghost use Rattle.std.specs.Prelude.{ℕ, ◌≡◌, ◌≢◌, ◌<◌, ◌≤◌, ◌+◌, ◌-◌, ◌*◌, ◌&&◌, [], Option, Some, None, is_some, length, map, true, false, IfOk};
ghost use Rattle.image_format.specs.Images.{image_data};
ghost use Rattle.kernel_abi.specs.Devices.{AreFresh};
ghost use Rattle.mem_banks.specs.Memory.{byte_at};
ghost use Rattle.task_table.specs.model.State.{Setup, State, Turn};
ghost use Rattle.task_table.specs.model.Reading.{chosen};
ghost use Rattle.task_table.specs.kept.Limits.{syscall_notes, turn_notes};
ghost use Rattle.run_script.specs.Events.{script_data};
ghost use Rattle.run_script.specs.Scripts.{lasts};
ghost use Rattle.board_model.specs.declared.outcomes.Level.TheVariants.{All, Calls};
ghost use Rattle.board_model.specs.Script.{Scenario, start_of};
ghost use Rattle.board_model.specs.Turn.{turn, turned};
ghost use Rattle.board_model.specs.Run.{state_after, turn_after};
ghost use Rattle.board_model.specs.Faults.{IsFaulting, ChangesNothingElse};
ghost use Rattle.board_model.specs.DeadCalls.{IsDeadTurn};
ghost use Rattle.board_model.specs.Lifetimes.{IsGroundedTurn};
ghost use Rattle.board_model.specs.Agreement.{DependsOnReads};
ghost use Rattle.board_model.specs.LonerTurns.{LeavesLoners, LonersDecide};
ghost use Rattle.board_core.specs.Opened.{scenario_of};
ghost use Rattle.board_core.specs.Stands.{Stands, StandsForSome, notes_of, turns_of};
ghost use Rattle.board_core.specs.Machine.{MachineHolds, MachineStands};
ghost use Rattle.board_core.specs.Kept.{IsChoice, WasChoice};
ghost use Rattle.board_core.specs.fast.Advanced.{IsAdvanced, IsStopped, HasMade, WentFar, IsCall, IsToCall, MayGoFast, MayGoFastBy, WentFast, WentFastBy, NeededTurn, WaitedFor};
ghost use Rattle.board_core.specs.fast.Breakpoints.{is_hit, hit_of};
ghost use Rattle.board_core.specs.Changes.{change_in};
ghost use Rattle.board_core.specs.fast.Stops.{Stops, stops_at};
ghost use Rattle.board_core.specs.fast.Skipped.{IsIdleUntil};
ghost use Rattle.board_core.specs.Midway.{IsDue, IsMidway};

use crate::changes::{Change, change_by, runner_of};
use crate::choice::{Choice, choice_of, renew_choice};
use crate::fast_path::breakpoints::hit_of;
use crate::list::Devices;
use crate::machine::Machine;
use crate::opening::{io_regions, kernel};
use board_model::{Level, Turned};
use devices::Device;
use image_format::Image;
use kernel_abi::Note;
use region_check::Region;
use run_script::Script;
use std::alloc::{AllocError, Global};

/// A board with an image and a script: what its kernel keeps, how many turns it has made, which
/// task runs next, and the next turn in which something happens.
#[derive(Drop)]
pub struct Board {
    pub(crate) machine: Machine,
    pub(crate) turns: u32,
    pub(crate) choice: Choice,
    pub(crate) script: Script,
    pub(crate) due: Option<u32>,

    /// A guess at the index of the first listed event from that turn on. A wrong guess costs a
    /// search.
    pub(crate) first_listed: usize,

    /// The regions of devices that each task may read.
    pub(crate) io_regions: Vec<Vec<Region>>,
}

impl Board {
    /// The board at the start of a run of an image, with a script and with devices. There are at
    /// most eight devices, each at a place of its own, and nothing has come to them yet.
    ///
    /// # Errors
    ///
    /// Only if memory runs out.
    pub fn open(
        alloc: Global,
        image: &Image,
        script: &Script,
        devices: Vec<Box<dyn Device>>,
    ) -> Result<Board, AllocError>
        requires { AreFresh (map shown devices.items) }
        ensures stands { let x = scenario_of (image_data image.now) (script_data script.now)
            (map shown devices.items) in IfOk result (λ b. Stands shown x b (start_of x)) }
        ensures turns { IfOk result (λ b. turns_of b ≡ 0) }
    {
        let devices = Devices::of(devices);
        let kernel = kernel(alloc, image)?;
        let script = script.copy(alloc)?;
        let choice = choice_of(&kernel);
        let due = script.next(0);
        let io_regions = io_regions(alloc, &kernel)?;
        Ok(Board {
            machine: Machine::of(alloc, kernel, devices),
            turns: 0,
            choice,
            script,
            due,
            first_listed: 0,
            io_regions,
        })
    }

    /// One turn: the events of this turn, then one instruction of the chosen task, or nothing if
    /// none is ready. Its notes are those of `Level::All`.
    pub fn turn(&mut self) -> Turned
        requires few { turns_of self.old < 1000000000 }
        requires stood { StandsForSome shown self.old }
        ensures model { (x : Scenario) (s : State) → Stands shown x self.old s →
            Stands shown x self.new (turn All x s).state }
        ensures notes { (x : Scenario) (s : State) → Stands shown x self.old s →
            notes_of self.new ≡ (turn All x s).notes }
        ensures turned { (x : Scenario) (s : State) → Stands shown x self.old s →
            result ≡ turned x s }
        ensures few { length (notes_of self.new) ≤ turn_notes }
        ensures turns { turns_of self.new ≡ turns_of self.old + 1 }

        // Each byte is written on a ground that its writer has. A device is reached only by a task
        // that may use it. Only open calls are touched. With any memory that agrees on what the
        // turn reads, the turn would have done the same.
        ensures grounds { (x : Scenario) (s : State) → Stands shown x self.old s →
            IsGroundedTurn All x s }
        ensures reads { (x : Scenario) (s : State) → Stands shown x self.old s →
            DependsOnReads All x s }

        // A task that faults changes nothing else. A task whose system call names an earlier birth
        // of a task gets an answer, and nothing else changes.
        ensures faults { (x : Scenario) (s : State) → Stands shown x self.old s → (c : ℕ) →
            IsFaulting All x s c → ChangesNothingElse All x s c }
        ensures dead_ids { (x : Scenario) (s : State) → Stands shown x self.old s →
            IsDeadTurn All x s }
        // What other tasks do leaves a loner as it is. The loner's own turn depends only on what it
        // has for itself.
        ensures loners { (x : Scenario) (s : State) → Stands shown x self.old s →
            LeavesLoners All x s }
        ensures alone { (x : Scenario) (s : State) → Stands shown x self.old s →
            LonersDecide All x s }
    {
        self.turn_at(Level::All)
    }

    /// One turn as `turn`, with only the notes of this level.
    pub fn turn_at(&mut self, level: Level) -> Turned
        requires few { turns_of self.old < 1000000000 }
        requires stood { StandsForSome shown self.old }
        ensures model { (x : Scenario) (s : State) → Stands shown x self.old s →
            Stands shown x self.new (turn level x s).state }
        ensures notes { (x : Scenario) (s : State) → Stands shown x self.old s →
            notes_of self.new ≡ (turn level x s).notes }
        ensures turned { (x : Scenario) (s : State) → Stands shown x self.old s →
            result ≡ turned x s }
        ensures few { length (notes_of self.new) ≤ turn_notes }
        ensures turns { turns_of self.new ≡ turns_of self.old + 1 }

        // If no event is due, the board still knows the same next one, and if nothing was noted,
        // the choice stays too.
        ensures due { self.old.due ≢ Some (turns_of self.old) → self.new.due ≡ self.old.due }
        ensures kept { self.old.due ≢ Some (turns_of self.old) → notes_of self.new ≡ [] →
            self.new.choice ≡ self.old.choice }

        // Each byte is written on a ground that its writer has. A device is reached only by a task
        // that may use it. Only open calls are touched. With any memory that agrees on what the
        // turn reads, the turn would have done the same.
        ensures grounds { (x : Scenario) (s : State) → Stands shown x self.old s →
            IsGroundedTurn level x s }
        ensures reads { (x : Scenario) (s : State) → Stands shown x self.old s →
            DependsOnReads level x s }

        // A task that faults changes nothing else. A task whose system call names an earlier birth
        // of a task gets an answer, and nothing else changes.
        ensures faults { (x : Scenario) (s : State) → Stands shown x self.old s → (c : ℕ) →
            IsFaulting level x s c → ChangesNothingElse level x s c }
        ensures dead_ids { (x : Scenario) (s : State) → Stands shown x self.old s →
            IsDeadTurn level x s }
        // What other tasks do leaves a loner as it is. The loner's own turn depends only on what it
        // has for itself.
        ensures loners { (x : Scenario) (s : State) → Stands shown x self.old s →
            LeavesLoners level x s }
        ensures alone { (x : Scenario) (s : State) → Stands shown x self.old s →
            LonersDecide level x s }
    {
        self.begin();
        self.turns += 1;
        let noted = self.notes().len();
        let turned = self.machine.turn(level, self.choice.next);
        self.renew(noted);
        turned
    }

    /// One turn, and further ones as long as each notes nothing, the run goes on and fewer than
    /// `limit` turns are made in all. If instructions are noted, each turn notes something, so this
    /// makes one turn.
    #[inline(always)]
    pub fn advance(&mut self, level: Level, limit: u32)
        requires stood { StandsForSome shown self.old }
        requires left { turns_of self.old < limit }
        requires few { limit ≤ 1000000000 }
        ensures advanced { (x : Scenario) (s : State) → Stands shown x self.old s →
            IsAdvanced shown level x (turns_of self.new - turns_of self.old - 1) s self.new }
        ensures more { turns_of self.old < turns_of self.new }
        ensures far { level ≡ Calls → (x : Scenario) (s : State) → Stands shown x self.new s →
            notes_of self.new ≡ [] → turns_of self.new < limit → IsStopped x s }
        ensures within { turns_of self.new ≤ limit }
        ensures noted { length (notes_of self.new) ≤ turn_notes }
    {
        match level {
            Level::Calls => self.go_on(limit),
            Level::All => {
                self.turn_at(Level::All);
            }
        }
    }

    /// The same, when instructions are not noted.
    #[inline(always)]
    fn go_on(&mut self, limit: u32)
        requires stood { StandsForSome shown self.old }
        requires left { turns_of self.old < limit }
        requires few { limit ≤ 1000000000 }
        ensures advanced { (x : Scenario) (s : State) → Stands shown x self.old s →
            IsAdvanced shown Calls x (turns_of self.new - turns_of self.old - 1) s self.new }
        ensures more { turns_of self.old < turns_of self.new }
        ensures far { (x : Scenario) (s : State) → Stands shown x self.new s →
            notes_of self.new ≡ [] → turns_of self.new < limit → IsStopped x s }
        ensures within { turns_of self.new ≤ limit }
        ensures noted { length (notes_of self.new) ≤ turn_notes }
    {
        self.advance_past(&[], limit);
        'on: while self.turns < limit && self.notes().is_empty() && self.ended().is_none() {
            self.advance_past(&[], limit);
        }
    }

    /// Makes as many turns as it can on the fast path, and then a whole one if fewer than `limit`
    /// turns are made by then. If the task of that last turn had its PC at a breakpoint, the result
    /// is that task and its PC. No earlier turn was at one.
    ///
    /// It is inlined, so each caller has its own copy of the fast path. The copy of a caller
    /// without breakpoints does not look for any.
    #[inline(always)]
    pub fn advance_past(&mut self, breakpoints: &[u32], limit: u32) -> Option<(u16, u32)>
        requires stood { StandsForSome shown self.old }
        requires left { turns_of self.old < limit }
        requires few { limit ≤ 1000000000 }
        ensures advanced { (x : Scenario) (s : State) → Stands shown x self.old s →
            IsAdvanced shown Calls x (turns_of self.new - turns_of self.old - 1) s self.new }
        ensures more { turns_of self.old < turns_of self.new }
        ensures within { turns_of self.new ≤ limit }
        ensures noted { length (notes_of self.new) ≤ turn_notes }
        ensures passed { (x : Scenario) (s : State) → Stands shown x self.old s → (k : ℕ) →
            k < turns_of self.new - turns_of self.old - 1 →
            is_hit breakpoints.now (turned x (state_after Calls x k s)) ≡ false }
        ensures hit { (x : Scenario) (s : State) → Stands shown x self.old s →
            result ≡ hit_of breakpoints.now
            (turned x (state_after Calls x (turns_of self.new - turns_of self.old - 1) s)) }

        // The whole turn is one that the fast path cannot make past these breakpoints.
        ensures needed { NeededTurn shown (stops_at breakpoints.now None) limit self.old self.new }
        ensures idle { WaitedFor shown limit self.old self.new }
    {
        match self.glide(breakpoints, None, quiet_until(self.due, limit)) {
            None => {
                if self.turns >= limit {
                    return None;
                }
                hit_of(breakpoints, self.turn_at(Level::Calls))
            }
            Some(task) => {
                self.call(task);
                None
            }
        }
    }

    /// Makes as many turns as it can on the fast path, with no window that has the byte at an
    /// address, and then a whole one if fewer than `limit` turns are made by then. The result is
    /// what that last turn changed of the byte. No earlier turn changed it.
    #[inline(always)]
    pub fn advance_watching(&mut self, at: u32, limit: u32) -> Option<Change>
        requires stood { StandsForSome shown self.old }
        requires left { turns_of self.old < limit }
        requires few { limit ≤ 1000000000 }
        ensures advanced { (x : Scenario) (s : State) → Stands shown x self.old s →
            IsAdvanced shown Calls x (turns_of self.new - turns_of self.old - 1) s self.new }
        ensures more { turns_of self.old < turns_of self.new }
        ensures within { turns_of self.new ≤ limit }
        ensures noted { length (notes_of self.new) ≤ turn_notes }
        ensures untouched { (x : Scenario) (s : State) → Stands shown x self.old s → (k : ℕ) →
            k < turns_of self.new - turns_of self.old - 1 →
            byte_at (turn_after Calls x k s).state.memory at ≡ byte_at s.memory at }
        ensures changed { (x : Scenario) (s : State) → Stands shown x self.old s →
            result ≡ change_in x at (state_after Calls x (turns_of self.new - turns_of self.old - 1)
            s) }

        // The whole turn is one that the fast path cannot make without the byte.
        ensures needed { NeededTurn shown (stops_at [] (Some at)) limit self.old self.new }
        ensures idle { WaitedFor shown limit self.old self.new }
    {
        self.glide(&[], Some(at), quiet_until(self.due, limit));
        if self.turns >= limit {
            return None;
        }
        self.turn_watching(at)
    }

    /// Makes one whole turn, and returns what it changed of the byte at an address.
    fn turn_watching(&mut self, at: u32) -> Option<Change>
        requires few { turns_of self.old < 1000000000 }
        requires stood { StandsForSome shown self.old }
        ensures model { (x : Scenario) (s : State) → Stands shown x self.old s →
            Stands shown x self.new (turn Calls x s).state }
        ensures notes { (x : Scenario) (s : State) → Stands shown x self.old s →
            notes_of self.new ≡ (turn Calls x s).notes }
        ensures changed { (x : Scenario) (s : State) → Stands shown x self.old s →
            result ≡ change_in x at s }
        ensures few { length (notes_of self.new) ≤ turn_notes }
        ensures turns { turns_of self.new ≡ turns_of self.old + 1 }
    {
        let before = self.byte(at);
        let turned = self.turn_at(Level::Calls);
        let after = self.byte(at);
        change_by(runner_of(turned), before, after)
    }

    /// The fast path. It makes turns before turn `until`; nothing is due in them. None of them
    /// notes anything, is at a breakpoint or changes the watched byte. They are turns of the chosen
    /// task within a window of its memory, as far as it goes there. If no task is ready, they are
    /// all idle turns.
    #[inline(always)]
    fn glide(&mut self, breakpoints: &[u32], watched: Option<u32>, until: u32) -> Option<usize>
        requires { MayGoFast shown self.old until }
        ensures fast { WentFast shown (stops_at breakpoints.now watched) until self.old self.new }
        ensures stays { until ≤ turns_of self.old → self.new ≡ self.old }

        // It stops earlier only if the next instruction is a system call, faults, is at a
        // breakpoint or reaches beyond the window, or if there is no window.
        ensures far { WentFar shown (stops_at breakpoints.now watched) until self.old self.new
            (is_some result) }
        ensures calls { (task : ℕ) → result ≡ Some task →
            IsToCall shown (stops_at breakpoints.now watched) task self.old self.new }
        ensures before { (task : ℕ) → result ≡ Some task → turns_of self.new < until }
        ensures idle { (x : Scenario) (s : State) → Stands shown x self.old s →
            chosen x.setup s ≡ None → self.old.choice.down ≡ false → lasts x.script until ≡ true →
            until ≤ turns_of self.new }
    {
        if self.turns >= until || self.choice.down {
            return None;
        }
        match self.choice.next {
            None => {
                self.idle_on(until);
                None
            }
            Some(task) => {
                if self.glide_on(breakpoints, watched, task, until) {
                    Some(task)
                } else {
                    None
                }
            }
        }
    }

    /// The same, when this task is chosen and the supervisor has not faulted.
    #[inline(always)]
    fn glide_on(
        &mut self,
        breakpoints: &[u32],
        watched: Option<u32>,
        task: usize,
        until: u32,
    ) -> bool
        requires { MayGoFastBy shown self.old (Some task) until }
        ensures { WentFastBy shown (stops_at breakpoints.now watched) task until self.old self.new
            result }
    {
        if !self.io_regions[task].is_empty() {
            return self.poll_on(breakpoints, watched, task, until);
        }
        self.machine.begin();
        let glided = self
            .machine
            .glide(breakpoints, watched, task, until - self.turns);
        self.turns += glided.made;
        glided.at_syscall
    }

    /// The same, when the task may read devices.
    #[cold]
    #[inline(never)]
    fn poll_on(
        &mut self,
        breakpoints: &[u32],
        watched: Option<u32>,
        task: usize,
        until: u32,
    ) -> bool
        requires { MayGoFastBy shown self.old (Some task) until }
        ensures { WentFastBy shown (stops_at breakpoints.now watched) task until self.old self.new
            result }
    {
        self.machine.begin();
        let io_regions = &mut self.io_regions[task];
        let glided = self
            .machine
            .poll(breakpoints, watched, task, until - self.turns, io_regions);
        self.turns += glided.made;
        glided.at_syscall
    }

    /// One turn in which a task makes a system call and nothing is due. It does what `turn_at`
    /// does.
    #[inline(always)]
    fn call(&mut self, task: usize)
        requires few { turns_of self.old < 1000000000 }
        requires stood { (x : Scenario) × (s : State) × Stands shown x self.old s
            × IsCall x s task }
        ensures made { (x : Scenario) (s : State) → Stands shown x self.old s → IsCall x s task →
            HasMade shown Calls x s self.new }
        ensures few { length (notes_of self.new) ≤ turn_notes }
        ensures turns { turns_of self.new ≡ turns_of self.old + 1 }
    {
        self.machine.begin();
        self.turns += 1;
        self.machine.call(task);
        self.renew(0);
    }

    /// The same, when no task is ready.
    fn idle_on(&mut self, until: u32)
        requires { MayGoFastBy shown self.old None until }
        ensures fast { (stops : Stops) → WentFast shown stops until self.old self.new }
        ensures idle { (x : Scenario) (s : State) → Stands shown x self.old s →
            lasts x.script until ≡ true → until ≤ turns_of self.new }
    {
        if self.script.lasts(until) {
            self.skip(until);
        }
    }

    /// Makes all idle turns before turn `to` at once. Until then no task is ready and nothing
    /// happens.
    pub fn skip(&mut self, to: u32)
        requires stood { StandsForSome shown self.old }
        requires from { turns_of self.old ≤ to }
        requires few { to ≤ 1000000000 }
        requires idle { (x : Scenario) (s : State) → Stands shown x self.old s →
            IsIdleUntil x s to }
        ensures model { (x : Scenario) (s : State) → Stands shown x self.old s →
            Stands shown x self.new (state_after Calls x (to - s.turn) s) }
        ensures nothing { notes_of self.new ≡ [] }
        ensures turns { turns_of self.new ≡ to }
    {
        self.machine.begin();
        self.turns = to;
    }

    /// Begins a turn, with its events.
    #[inline(always)]
    fn begin(&mut self)
        requires few { turns_of self.old < 1000000000 }
        requires stood { StandsForSome shown self.old }
        ensures midway { (x : Scenario) (s : State) → Stands shown x self.old s →
            IsMidway shown x self.new s }
        ensures few { length (notes_of self.new) ≤ 9 * syscall_notes }
        ensures turns { turns_of self.new ≡ turns_of self.old }
        ensures due { self.old.due ≢ Some (turns_of self.old) → self.new.due ≡ self.old.due }
        ensures kept { self.old.due ≢ Some (turns_of self.old) → self.new.choice ≡ self.old.choice }
    {
        self.machine.begin();
        if is_due(self.due, self.turns) {
            self.happen();
        }
    }

    /// Lets the events of this turn happen. Then it brings the choice up to date and looks up the
    /// next turn with an event.
    fn happen(&mut self)
        requires few { turns_of self.old < 1000000000 }
        requires stands { (x : Scenario) × (s : State) × IsDue shown x self.old s }
        ensures midway { (x : Scenario) (s : State) → IsDue shown x self.old s →
            IsMidway shown x self.new s }
        ensures few { length (notes_of self.new) ≤ 9 * syscall_notes }
        ensures turns { turns_of self.new ≡ turns_of self.old }
    {
        let first = self.script.first_listed(self.first_listed, self.turns);
        self.machine.happen_all(&self.script, first, self.turns);
        self.machine.save_context();
        renew_choice(&self.machine.space.kernel, &mut self.choice);
        self.first_listed = self.script.first_listed_after(first, self.turns);
        self.due = self.script.next_from(self.first_listed, self.turns + 1);
    }

    /// Brings the choice up to date if the last turn noted something after its first `noted` notes,
    /// those of its events. A turn that notes nothing after them leaves each task as ready as it
    /// was.
    #[inline(always)]
    fn renew(&mut self, noted: usize)
        requires { (g : Setup) × (t : Turn) × MachineStands shown g self.old.machine t }
        ensures holds { (g : Setup) (t : Turn) → MachineHolds shown g self.old.machine t →
            MachineHolds shown g self.new.machine t }
        ensures choice { (g : Setup) (t : Turn) → MachineStands shown g self.old.machine t →
            WasChoice g self.old.choice →
            (length t.notes ≤ noted → IsChoice g t.state self.old.choice) →
            IsChoice g t.state self.new.choice }
        ensures count { length (notes_of self.new) ≡ length (notes_of self.old) }
        ensures turns { turns_of self.new ≡ turns_of self.old }
        ensures script { self.new.script ≡ self.old.script }
        ensures io_regions { self.new.io_regions ≡ self.old.io_regions }
        ensures due { self.new.due ≡ self.old.due }
        ensures kept { length (notes_of self.new) ≤ noted → self.new.choice ≡ self.old.choice }
    {
        if self.notes().len() > noted {
            self.machine.save_context();
            renew_choice(&self.machine.space.kernel, &mut self.choice);
        }
    }

    /// The notes of the last turn, in order.
    pub fn notes(&self) -> &[Note]
        ensures { result.now ≡ notes_of self.now }
    {
        self.machine.space.kernel.notes()
    }
}

/// The turn before which nothing is due; at most the limit.
fn quiet_until(due: Option<u32>, limit: u32) -> u32
    ensures within { result ≤ limit }
    ensures later { (turn : ℕ) → turn < result → due ≢ Some turn }
    ensures met { result < limit → due ≡ Some result }
{
    match due {
        None => limit,
        Some(turn) => { if turn < limit { turn } else { limit } }
    }
}

/// Whether something happens in this turn, given the turn in which something happens next.
fn is_due(due: Option<u32>, turn: u32) -> bool
    ensures due { result ≡ true → due ≡ Some turn }
    ensures later { result ≡ false → due ≢ Some turn }
{
    due == Some(turn)
}
