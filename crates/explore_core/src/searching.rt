//! How a search goes on: from way to way in which an arrival may come, and back.
ghost use Rattle.std.specs.Prelude.{ℕ, ◌≡◌, ◌≤◌, ◌<◌, ◌+◌, ◌-◌, true, false, None, Some, if◌then◌else◌, length, get_or, map, slice_index_or};
ghost use Rattle.std.specs.List.{All};
ghost use Rattle.std.specs.Option.{option_or};
ghost use Rattle.run_question.specs.Questions.{arrival_data, offer_data};
ghost use Rattle.task_table.specs.model.State.{State};
ghost use Rattle.board_model.specs.Alike.{reduced};
ghost use Rattle.board_model.specs.Run.{ending};
ghost use Rattle.board_model.specs.Script.{Scenario};
ghost use Rattle.board_core.specs.Data.{boxed};
ghost use Rattle.board_core.specs.Stands.{Stands, turns_of};
ghost use Rattle.snapshot.specs.Saved.{SpellsState, expected_of};
ghost use Rattle.snapshot.specs.Waits.{state_fault};
ghost use Rattle.explore_core.specs.declared.ways.Way.{Way as Came};
ghost use Rattle.explore_core.specs.Answers.{Asking};
ghost use Rattle.explore_core.specs.Searching.{AreEarliest, AreOverAt, Ends, GoesOn, HasBegun, HasKeptState, HasLaid, HasLed, HasReturned, HasWritten, IsAsked, IsAt, IsLayable, IsNext, IsSomewhere, IsSomewhereAmong, IsSomewhereWith, IsUnderWay, WasSeen, at_first, party_in, to_do, without_next};
ghost use Rattle.explore_core.specs.Walked.{Course, may_come_in};
ghost use Rattle.explore_core.specs.Watching.{Judged, are_open, is_open, judged, watched_of};

use crate::given::Given;
use crate::laying::lay_ways;
use crate::position::Position;
use crate::search::Search;
use crate::seen::MOST;
use crate::verdict::Verdict;
use crate::watch::Watched;
use crate::ways::{PLACES, Way, Ways};
use board_core::End;
use board_run::ending;
use run_question::{Arrival, Offer};
use snapshot::{load_into, save_over, saved_len, saved_states_are_accepted};

/// The ways in which those that are to come come as early as they may, from a turn on.
fn earliest_ways(ways: &Ways, pending: &[bool; PLACES], arrivals: &[Arrival], from: u32) -> Ways
    requires few { length arrivals.now ≤ 8 }
    ensures { AreEarliest (map arrival_data arrivals.now) pending.now from ways.now result }
{
    let mut earliest = *ways;
    for place in 0..arrivals.len() {
        if pending[place] {
            earliest[place] = Some(Way {
                turn: arrivals[place].first.max(from),
                choice: 0,
            });
        }
    }
    earliest
}

/// What is found of a property that has this verdict: what was found before, or else these ways,
/// where it is broken.
fn found_by(verdict: Verdict, found: Option<Ways>, ways: &Ways) -> Option<Ways>
    ensures { result ≡ option_or found (if is_open verdict then None else Some ways.now) }
{
    match found {
        Some(before) => Some(before),
        None => match verdict {
            Verdict::Open { .. } => None,
            Verdict::Broken { .. } => Some(*ways),
        },
    }
}

/// Writes down these ways for each property that is broken and has none yet.
fn write_broken(watched: &[Watched], ways: &Ways, found: &mut [Option<Ways>; MOST])
    requires few { length watched.now ≤ 16 }
    ensures { (place : ℕ) (w : Judged) → place < length watched.now →
        slice_index_or found.new place None ≡ option_or (slice_index_or found.old place None)
        (if is_open (get_or (map judged watched.now) place w).1 then None else Some ways.now) }
{
    for place in 0..watched.len() {
        found[place] = found_by(watched[place].verdict, found[place], ways);
    }
}

/// Whether all events of some offers that count from a turn are of turns before another one.
fn are_before(offers: &[Offer], from: u32, turn: u32) -> bool
    ensures { result ≡ true → All (λ o. from + o.turn < turn) (map offer_data offers.now) }
{
    for offer in offers {
        if turn <= from || turn - from <= offer.turn {
            return false;
        }
    }
    true
}

/// Whether an arrival that comes so, if it is not still to come, has all its events in turns before
/// a turn.
fn is_past(arrival: &Arrival, pending: bool, way: Option<Way>, turn: u32) -> bool
    ensures { result ≡ true → pending ≡ false → (came : Came) → way ≡ Some came →
        All (λ o. came.turn + o.turn < turn) (arrival_data arrival.now).offers }
{
    match way {
        None => true,
        Some(came) => pending || are_before(&arrival.offers, came.turn, turn),
    }
}

/// Whether all events of those that have come are of turns before a turn.
fn are_over(arrivals: &[Arrival], pending: &[bool; PLACES], ways: &Ways, turn: u32) -> bool
    requires few { length arrivals.now ≤ 8 }
    ensures { result ≡ true →
        AreOverAt (map arrival_data arrivals.now) pending.now turn ways.now }
{
    for place in 0..arrivals.len() {
        if !is_past(&arrivals[place], pending[place], ways[place], turn) {
            return false;
        }
    }
    true
}

/// Any number that tells some bytes from most others.
fn digest(bytes: &[u8]) -> u64 {
    let mut digest = 0xcbf2_9ce4_8422_2325_u64;
    for byte in bytes {
        digest = (digest ^ u64::from(*byte)).wrapping_mul(0x0100_0000_01b3);
    }
    digest
}

impl Search {
    /// Writes down the schedule of each property that is broken and has none yet: the one in which
    /// all that are to come do so as early as they may, from a turn on.
    fn write_down(&mut self, given: &Given, pending: &[bool; PLACES], from: u32)
        requires few { length given.now.question.arrivals.items ≤ 8 }
        ensures written { HasWritten (map arrival_data given.now.question.arrivals.items)
            pending.now from self.old.ways (watched_of self.old.watch) self.old.found
            self.new.found }
        ensures same { self.new ≡ (record self.old { found = self.new.found }) }
    {
        let ways = earliest_ways(&self.ways, pending, &given.question.arrivals, from);
        let watch = &self.watch;
        write_broken(watch.properties.as_slice(), &ways, &mut self.found);
    }

    /// Lays the script of the ways over the board's.
    fn lay_script(&mut self, given: &Given)
        requires layable { IsLayable given.now self.old }
        requires turns { turns_of self.old.board ≤ 1000000000 }
        ensures { HasLaid (boxed shown) given.now self.old self.new }
    {
        lay_ways(
            &mut self.spare,
            &given.script,
            &given.question.arrivals,
            &self.ways,
        );
        self.board.exchange_script(&mut self.spare);
    }

    /// Whether all events of those that have come are of turns before this one.
    fn is_over(&self, given: &Given, pending: &[bool; PLACES]) -> bool
        requires few { length given.now.question.arrivals.items ≤ 8 }
        ensures { result ≡ true → AreOverAt (map arrival_data given.now.question.arrivals.items)
            pending.now (turns_of self.now.board) self.now.ways }
    {
        are_over(
            &given.question.arrivals,
            pending,
            &self.ways,
            self.board.turns(),
        )
    }

    /// Whether the state where the board stands was seen before. If not, it is kept, where all that
    /// has come is over.
    fn is_seen(&mut self, given: &Given, at: &Position) -> bool
        requires somewhere { IsSomewhere (boxed shown) given.now at.now self.old }
        ensures same { self.new ≡ (record self.old { seen = self.new.seen; here = self.new.here }) }
        ensures seen { result ≡ true → WasSeen (boxed shown) given.now at.now self.old self.new }
        ensures kept { result ≡ false → HasKeptState (boxed shown) given.now at.now self.old
            self.new }
    {
        if !self.is_over(given, &at.pending) || self.here.len() != saved_len(&self.board) {
            return false;
        }
        save_over(&self.board, &mut self.here);
        let numbers = self.watch.numbers();
        let turn = self.board.turns();
        let digest = digest(&self.here);
        if self
            .seen
            .has(digest, turn, &at.pending, &numbers, &self.here)
        {
            return true;
        }
        self.seen
            .keep(digest, turn, &at.pending, &numbers, &mut self.here);
        false
    }

    /// The turn up to which to go on: the next one in which an arrival may come, or at which to
    /// look whether the state was seen.
    fn next_stop(&self, given: &Given, at: &Position) -> u32
        requires few { length given.now.question.arrivals.items ≤ 8 }
        requires early { turns_of self.now.board ≤ 1000000000 }
        requires left { turns_of self.now.board < given.now.limit }
        ensures later { turns_of self.now.board < result }
        ensures within { result ≤ given.now.limit }
        ensures none { (t : ℕ) → turns_of self.now.board < t → t < result → All (λ p.
            may_come_in p.1 t ≡ false) (party_in
            (map arrival_data given.now.question.arrivals.items) at.now.pending) }
    {
        let turn = self.board.turns();
        at.next_turn(&given.question.arrivals, turn, given.limit)
    }

    /// Ends the run where it stands: all that are to come are passed over in this turn, and may
    /// come later.
    fn finish_run(&mut self, given: &Given, at: &Position, end: End)
        requires somewhere { IsSomewhere (boxed shown) given.now at.now self.old }
        requires passed { length given.now.question.arrivals.items ≤ at.now.next }
        requires early { All (λ p. turns_of self.old.board + 1 < p.1.below)
            (party_in (map arrival_data given.now.question.arrivals.items) at.now.pending) }
        requires end { (x : Scenario) (s : State) → Stands (boxed shown) x self.old.board s →
            ending x (given.now.limit - s.turn) s ≡ Some end }
        ensures { Ends (boxed shown) given.now at.now self.old self.new }
    {
        let from = self.board.turns() + 1;
        self.watch.finish(end, &self.board);
        self.write_down(given, &at.pending, from);
    }

    /// Plays on to the next turn in which an arrival may come: all that are to come are passed over
    /// in this turn, and may come later.
    fn play_on(&mut self, given: &Given, at: &mut Position)
        requires somewhere { IsSomewhere (boxed shown) given.now at.old self.old }
        requires passed { length given.now.question.arrivals.items ≤ at.old.next }
        requires early { All (λ p. turns_of self.old.board + 1 < p.1.below)
            (party_in (map arrival_data given.now.question.arrivals.items) at.old.pending) }
        requires looked { are_open (watched_of self.old.watch) ≡ true }
        requires goes { (x : Scenario) (s : State) → Stands (boxed shown) x self.old.board s →
            ending x 1 s ≡ None }
        requires left { turns_of self.old.board < given.now.limit }
        ensures first { at.new ≡ at_first at.old }
        ensures same { self.new ≡ (record self.old {
          board = self.new.board;
          watch = self.new.watch;
          found = self.new.found;
        }) }
        ensures led { (a : Asking) (came : Course) (s : State) → IsAsked a given.now →
            IsAt (boxed shown) a at.old came s self.old →
            HasLed (boxed shown) a at.old at.new came s self.old self.new }
        ensures later { turns_of self.old.board < turns_of self.new.board }
        ensures within { turns_of self.new.board ≤ given.now.limit }
    {
        let from = self.board.turns() + 1;
        let stop = self.next_stop(given, at);
        self.watch.play_to(&mut self.board, stop);
        self.write_down(given, &at.pending, from);
        at.next = 0;
        at.choice = 0;
    }

    /// Goes on to the next turn in which an arrival may come, where all are passed over in this one
    /// and a property is looked for. Returns false where no schedule is left that breaks one.
    fn go_on(&mut self, given: &Given, at: &mut Position) -> bool
        requires somewhere { IsSomewhere (boxed shown) given.now at.old self.old }
        requires passed { length given.now.question.arrivals.items ≤ at.old.next }
        requires looked { are_open (watched_of self.old.watch) ≡ true }
        ensures on { result ≡ true →
            GoesOn (boxed shown) given.now at.old at.new self.old self.new }
        ensures ended { result ≡ false → Ends (boxed shown) given.now at.old self.old self.new }
        ensures pending { at.new.pending ≡ at.old.pending }
        ensures later { result ≡ true → turns_of self.old.board < turns_of self.new.board }
        ensures within { result ≡ true → turns_of self.new.board ≤ given.now.limit }
    {
        if at.is_too_late(&given.question.arrivals, self.board.turns()) {
            return false;
        }
        if let Some(end) = ending(&self.board, given.limit) {
            self.finish_run(given, at, end);
            return false;
        }
        self.play_on(given, at);
        !self.is_seen(given, at)
    }

    /// Goes on to the next way in which an arrival may come. Returns false where no schedule is
    /// left that breaks a property that is looked for.
    fn come_to_way(&mut self, given: &Given, at: &mut Position) -> bool
        requires under_way { IsUnderWay (boxed shown) given.now at.old self.old }
        ensures on { result ≡ true →
            GoesOn (boxed shown) given.now at.old at.new self.old self.new }
        ensures next { result ≡ true → IsNext (map arrival_data given.now.question.arrivals.items)
            (turns_of self.new.board) at.new }
        ensures ended { result ≡ false → Ends (boxed shown) given.now at.old self.old self.new }
        ensures pending { at.new.pending ≡ at.old.pending }
        ensures later { result ≡ true → turns_of self.old.board ≤ turns_of self.new.board }
        ensures falls { result ≡ true → to_do (given.now.limit - turns_of self.new.board) at.new ≤
            to_do (given.now.limit - turns_of self.old.board) at.old }
    {
        'turns: while self.watch.is_open() {
            if at.find_next(&given.question.arrivals, self.board.turns()) {
                return true;
            }
            if !self.go_on(given, at) {
                return false;
            }
        }
        false
    }

    /// Lets the next arrival come in this turn, and saves the state before it does.
    fn begin_way(&mut self, given: &Given, at: &Position, room: &mut Vec<u8>) -> Position
        requires somewhere { IsSomewhereWith (boxed shown) given.now at.now self.old
            (length room.old.items) }
        requires next { IsNext (map arrival_data given.now.question.arrivals.items)
            (turns_of self.old.board) at.now }
        ensures next { result ≡ without_next at.now }
        ensures begun { HasBegun (boxed shown) given.now at.now self.old self.new }
        ensures saved { (x : Scenario) (s : State) → Stands (boxed shown) x self.old.board s →
            SpellsState x.setup (reduced s) room.new.items }
        ensures long { length room.new.items ≡ length room.old.items }
    {
        save_over(&self.board, room);
        self.ways[at.next] = Some(Way {
            turn: self.board.turns(),
            choice: at.choice,
        });
        self.lay_script(given);
        let mut after = *at;
        after.pending[at.next] = false;
        after.next = at.next + 1;
        after.choice = 0;
        after
    }

    /// Comes back to the state before a way, and lets the arrival come as late as it may.
    fn end_way(&mut self, given: &Given, ways: &Ways, room: &[u8], kept: &[u32; 16])
        requires loadable { (x : Scenario) × (s : State) × Stands (boxed shown) x self.old.board s ×
            (state_fault (expected_of x.setup s.devices) room.now ≡ None) }
        requires layable { IsLayable given.now (record self.old { ways = ways.now }) }
        ensures { HasReturned (boxed shown) given.now ways.now room.now kept.now self.old
            self.new }
    {
        load_into(&mut self.board, room);
        self.watch.go_back(kept);
        self.ways = *ways;
        self.lay_script(given);
    }

    /// Goes through all schedules that are left at a position, in their order, and writes down the
    /// first one that breaks each property that is looked for. There is room for a state at each
    /// fork. The board is left anywhere.
    pub(crate) fn go(&mut self, given: &Given, at: Position, rooms: &mut [Vec<u8>])
        requires under_way { IsSomewhereAmong (boxed shown) given.now at self.old rooms.old }
        ensures ended { Ends (boxed shown) given.now at self.old self.new }
        ensures rooms { map (λ r. length r.items) rooms.new ≡ map (λ r. length r.items) rooms.old }
    {
        let mut at = at;
        'ways: while self.come_to_way(given, &mut at) {
            match rooms.split_first_mut() {
                Some((room, deeper)) => {
                    let kept = self.watch.numbers();
                    let ways = self.ways;
                    let next = self.begin_way(given, &at, room);
                    self.go(given, next, deeper);
                    saved_states_are_accepted();
                    self.end_way(given, &ways, room, &kept);
                    at.choice += 1;
                }
                None => unreachable!(),
            }
        }
    }
}
