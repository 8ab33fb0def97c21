//! `Sweeper`: a board that goes on from arrival time to arrival time, and from each of them to the
//! end of that run and back.
ghost use Rattle.std.specs.Prelude.{ℕ, ◌≡◌, ◌≤◌, ◌<◌, min, true, false, List, IfOk};
ghost use Rattle.outside_io.specs.Outside.{Pushes, HasCause};
ghost use Rattle.run_script.specs.Events.{script_data};
ghost use Rattle.run_script.specs.Scripts.{Listed};
ghost use Rattle.board_model.specs.Laid.{laid, may_be_laid};
ghost use Rattle.board_model.specs.Script.{Scenario, start_of};
ghost use Rattle.board_core.specs.Data.{boxed};
ghost use Rattle.board_core.specs.Stands.{Stands};
ghost use Rattle.sweep_core.specs.Leading.{IsLeading};
ghost use Rattle.sweep_core.specs.Swept.{makes_difference, sweep_text};
ghost use Rattle.sweep_core.specs.Sweeping.{Fork, HasTold, IsAt, IsAtFork, IsBased, IsBefore, IsLooked, IsReady, IsSweeping, PushesTimes, asked, asked_at, own_script, run_of};
ghost use Rattle.sweep_core.specs.Told.{IsTold};

use crate::comparing::Compared;
use crate::laying::{is_late, lay, span};
use crate::leader::Leader;
use crate::outcome::{OutcomeText, full, late};
use crate::tally::Tally;
use crate::text::{TimeStretch, push_base};
use crate::told::{Told, play_to};
use board_core::Board;
use outside_io::{Failed, Sink};
use run_script::Script;
use snapshot::{load_into, save_over, saved_len, saved_states_are_accepted};
use std::alloc::{AllocError, Global};

/// A board over which the events of an arrival are laid, one arrival time after the other.
#[derive(Drop)]
pub struct Sweeper {
    board: Board,

    /// The script of the run without the arrival. It has room for every event that is laid over it,
    /// until the board takes it.
    script: Script,
    arrival: Script,

    /// Room for the script of the next arrival time. It is swapped with the board's script, which
    /// has as much room from the first arrival time on.
    spare: Script,

    /// Room for the state before an arrival time.
    saved: Vec<u8>,

    /// The tally of the run up to the board's present turn.
    front: Tally,

    /// The run of an earlier arrival time, which later runs may meet.
    leader: Leader,
}

impl Sweeper {
    /// Opens a sweeper at the start of a run, with a board that is there. All memory is taken here.
    ///
    /// # Errors
    ///
    /// Only if memory runs out. The board is dropped then.
    pub fn open(
        alloc: Global,
        board: Board,
        script: &Script,
        arrival: &Script,
    ) -> Result<Sweeper, AllocError>
        requires { (x : Scenario) × Stands (boxed shown) x board (start_of x)
            × (x.script ≡ script_data script.now) }
        ensures { (x : Scenario) → Stands (boxed shown) x board (start_of x) →
            x.script ≡ script_data script.now →
            IfOk result (λ w. IsReady (boxed shown) x (script_data arrival.now).events w) }
    {
        let len = saved_len(&board);
        let saved = vec![in alloc; 0; len]?;
        let leader = Leader::open(alloc, len)?;
        let room = script.count() + arrival.count();
        let spare = Script::with_room(alloc, room)?;
        let mut own = Script::with_room(alloc, room)?;
        own.become_as(script);
        let arrival = arrival.copy(alloc)?;
        Ok(Sweeper {
            board,
            script: own,
            arrival,
            spare,
            saved,
            front: Tally::new(),
            leader,
        })
    }

    /// Makes the run that goes on from here, to its end or until it meets an earlier run, which it
    /// may do from turn `over` on. Afterwards the board is here again.
    fn tell(&mut self, over: u32, limit: u32, mem: bool) -> Told
        requires at { (x : Scenario) × (f : Fork) × IsAtFork (boxed shown) x f self.old over limit }
        requires over { over ≤ 2000000000 }
        requires few { limit ≤ 1000000000 }
        ensures told { (x : Scenario) (f : Fork) → IsAtFork (boxed shown) x f self.old over limit →
            IsLeading x limit mem self.old.leader → IsTold mem (run_of x f.script limit) result }
        ensures leads { (x : Scenario) (f : Fork) → IsAtFork (boxed shown) x f self.old over limit →
            IsLeading x limit mem self.old.leader → IsLeading x limit mem self.new.leader }
        ensures same { (x : Scenario) (f : Fork) → IsAtFork (boxed shown) x f self.old over limit →
            IsAtFork (boxed shown) x f self.new over limit }
        ensures own { (x : Scenario) (f : Fork) → IsAtFork (boxed shown) x f self.old over limit →
            own_script self.new ≡ own_script self.old }
        ensures script { self.new.script ≡ self.old.script }
    {
        saved_states_are_accepted();
        save_over(&self.board, &mut self.saved);
        let told = self
            .leader
            .follow(&mut self.board, &self.front, over, limit, mem);
        load_into(&mut self.board, self.saved.as_slice());
        told
    }

    /// Gives the board the script that has room. The board goes on with it.
    fn take_room(&mut self)
        requires { (x : Scenario) × (arrival : List Listed)
            × HasTold (boxed shown) x arrival self.old }
        ensures before { (x : Scenario) (arrival : List Listed) →
            HasTold (boxed shown) x arrival self.old → (time limit : ℕ) →
            IsBefore (boxed shown) x arrival self.new time limit }
        ensures leader { self.new.leader ≡ self.old.leader }
    {
        self.board.exchange_script(&mut self.script);
    }

    /// Goes on to an arrival time with its script, or to the end of the run before it. Returns
    /// false if there is no script; the board stays where it is then.
    fn go_to(&mut self, time: u32, limit: u32) -> bool
        requires before { (x : Scenario) × (arrival : List Listed)
            × IsBefore (boxed shown) x arrival self.old time limit }
        requires early { time ≤ 1000000000 }
        requires few { limit ≤ 1000000000 }
        ensures made { (x : Scenario) (arrival : List Listed) →
            IsBefore (boxed shown) x arrival self.old time limit →
            result ≡ may_be_laid x.script arrival time }
        ensures at { result ≡ true → (x : Scenario) (arrival : List Listed) →
            IsBefore (boxed shown) x arrival self.old time limit →
            IsAt (boxed shown) x arrival (laid x.script arrival time) self.new (min time limit) }
        ensures stays { result ≡ false → (x : Scenario) (arrival : List Listed) →
            IsBefore (boxed shown) x arrival self.old time limit →
            IsBefore (boxed shown) x arrival self.new time limit }
        ensures leader { self.new.leader ≡ self.old.leader }
    {
        if !lay(&mut self.spare, &self.script, &self.arrival, time) {
            return false;
        }
        self.board.exchange_script(&mut self.spare);
        play_to(&mut self.board, &mut self.front, time.min(limit));
        true
    }

    /// The outcome of an arrival time. It is compared if a run was made.
    fn look_at(
        &mut self,
        time: u32,
        limit: u32,
        mem: bool,
        base: &Told,
        compared: &mut Compared,
    ) -> OutcomeText
        requires before { (x : Scenario) × (arrival : List Listed)
            × IsSweeping (boxed shown) x arrival self.old time limit mem }
        requires early { time ≤ 1000000000 }
        requires few { limit ≤ 1000000000 }
        ensures before { (x : Scenario) (arrival : List Listed) →
            IsSweeping (boxed shown) x arrival self.old time limit mem →
            IsSweeping (boxed shown) x arrival self.new time limit mem }
        ensures looked { (x : Scenario) (arrival : List Listed) →
            IsSweeping (boxed shown) x arrival self.old time limit mem →
            IsLooked x (asked_at arrival time limit mem) time base.now compared.old compared.new
            result }
    {
        if is_late(&self.arrival, time, limit) {
            return late();
        }
        if !self.go_to(time, limit) {
            return full();
        }
        let over = time + span(&self.arrival);
        let told = self.tell(over, limit, mem);
        compared.add(base, &told);
        told.words
    }

    /// Pushes a line for each stretch of arrival times, and returns whether one of them makes a
    /// difference. There is at least one arrival time.
    fn push_times<S: Sink>(
        &mut self,
        from: u32,
        to: u32,
        limit: u32,
        mem: bool,
        base: &Told,
        out: &mut S,
    ) -> Result<bool, Failed>
        requires based { (x : Scenario) × (arrival : List Listed)
            × IsBased (boxed shown) x (asked arrival from to limit mem) self.old base.now }
        requires some { from < to }
        requires range { to ≤ 1000000000 }
        requires few { limit ≤ 1000000000 }
        ensures text { (x : Scenario) (arrival : List Listed) →
            let a = asked arrival from to limit mem in IsBased (boxed shown) x a self.old base.now →
            PushesTimes x a (S.seen out.old) (S.seen out.new) result }
        ensures makes { (x : Scenario) (arrival : List Listed) →
            let a = asked arrival from to limit mem in IsBased (boxed shown) x a self.old base.now →
            IfOk result (λ d. d ≡ makes_difference x a) }
        ensures cause { HasCause (S.seen out.old).faults (S.seen out.new).faults result }
    {
        let mut compared = Compared::new();
        let mut stretch = TimeStretch {
            first: from,
            words: self.look_at(from, limit, mem, base, &mut compared),
        };
        for time in from + 1..to {
            let words = self.look_at(time, limit, mem, base, &mut compared);
            stretch.go_on(time, words, &base.words, out)?;
        }
        stretch.end(to, &base.words, out)?;
        Ok(compared.found)
    }

    /// Makes the run without the arrival, and then a run for each arrival time from `from` on and
    /// below `to`. Each run has at most `limit` turns. It pushes the line of the first run, and a
    /// line for each stretch of arrival times with the same outcome (docs/FORMATS.md, Sweep), and
    /// flushes the sink after each line. It returns whether one of the arrival times makes a
    /// difference. It takes no memory.
    ///
    /// # Errors
    ///
    /// Only if a push or a flush fails. No further run is made.
    pub fn sweep<S: Sink>(
        &mut self,
        from: u32,
        to: u32,
        limit: u32,
        mem: bool,
        out: &mut S,
    ) -> Result<bool, Failed>
        requires ready { (x : Scenario) × (arrival : List Listed)
            × IsReady (boxed shown) x arrival self.old }
        requires range { to ≤ 1000000000 }
        requires few { limit ≤ 1000000000 }
        ensures text { (x : Scenario) (arrival : List Listed) →
            IsReady (boxed shown) x arrival self.old →
            Pushes (S.seen out.old).written (S.seen out.new).written
            (sweep_text x (asked arrival from to limit mem)) result }
        ensures makes { (x : Scenario) (arrival : List Listed) →
            IsReady (boxed shown) x arrival self.old →
            IfOk result (λ d. d ≡ makes_difference x (asked arrival from to limit mem)) }
        ensures cause { HasCause (S.seen out.old).faults (S.seen out.new).faults result }
    {
        let base = self.tell(limit, limit, mem);
        push_base(&base.words, out)?;
        if from >= to {
            return Ok(false);
        }
        self.take_room();
        self.push_times(from, to, limit, mem, &base, out)
    }
}
