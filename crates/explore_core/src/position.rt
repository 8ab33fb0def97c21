//! Where a search stands among the arrivals that are to come.
ghost use Rattle.std.specs.Prelude.{ℕ, ◌≡◌, ◌≤◌, ◌<◌, ◌+◌, ◌-◌, true, false, length, map};
ghost use Rattle.std.specs.List.{All};
ghost use Rattle.run_question.specs.Questions.{arrival_data};
ghost use Rattle.explore_core.specs.Answers.{Asking};
ghost use Rattle.explore_core.specs.Fine.{IsFineArrival};
ghost use Rattle.explore_core.specs.Searching.{IsNext, IsTooLate, is_way, left_at, party_in, to_do};
ghost use Rattle.explore_core.specs.Walked.{Course, may_come_in};

use crate::laying::choice_count;
use crate::ways::PLACES;
use run_question::Arrival;

/// Which arrivals are to come, by their places; the place from which on they may come in this turn,
/// those before it being passed over; and how many choices of the one at that place were gone
/// through.
#[derive(Clone, Copy)]
pub(crate) struct Position {
    pub(crate) pending: [bool; PLACES],
    pub(crate) next: usize,
    pub(crate) choice: u64,
}

/// Whether an arrival may come in a turn.
fn may_come_in(arrival: &Arrival, turn: u32) -> bool
    ensures { result ≡ may_come_in (arrival_data arrival.now) turn }
{
    arrival.first <= turn && turn < arrival.below
}

impl Position {
    /// Whether the arrival at the next place may come in this turn, in a choice that is left.
    fn is_way(&self, arrivals: &[Arrival], turn: u32) -> bool
        requires fine { All IsFineArrival (map arrival_data arrivals.now) }
        requires few { length arrivals.now ≤ 8 }
        requires inside { self.now.next < length arrivals.now }
        ensures { result ≡ is_way (map arrival_data arrivals.now) turn self.now }
    {
        let arrival = &arrivals[self.next];
        self.pending[self.next]
            && may_come_in(arrival, turn)
            && self.choice < choice_count(&arrival.offers)
    }

    /// Passes over the arrivals that do not come in this turn, or not in another choice. Returns
    /// false where none is left.
    pub(crate) fn find_next(&mut self, arrivals: &[Arrival], turn: u32) -> bool
        requires fine { All IsFineArrival (map arrival_data arrivals.now) }
        requires few { length arrivals.now ≤ 8 }
        ensures pending { self.new.pending ≡ self.old.pending }
        ensures found { result ≡ true → IsNext (map arrival_data arrivals.now) turn self.new }
        ensures over { result ≡ false → length arrivals.now ≤ self.new.next }
        ensures left { (a : Asking) → a.question.arrivals ≡ map arrival_data arrivals.now →
            (came : Course) → left_at a self.new came turn ≡ left_at a self.old came turn }
        ensures falls { (turns : ℕ) → to_do turns self.new ≤ to_do turns self.old }
    {
        'places: while self.next < arrivals.len() {
            if self.is_way(arrivals, turn) {
                return true;
            }
            // The choices are those of the first arrival that is to come.
            if self.pending[self.next] {
                self.choice = 0;
            }
            self.next += 1;
        }
        false
    }

    /// Whether one of the arrivals that are to come can no longer come in a later turn.
    pub(crate) fn is_too_late(&self, arrivals: &[Arrival], turn: u32) -> bool
        requires few { length arrivals.now ≤ 8 }
        requires early { turn ≤ 1000000000 }
        ensures late { result ≡ true → IsTooLate turn
            (party_in (map arrival_data arrivals.now) self.now.pending) }
        ensures early { result ≡ false → All (λ p. turn + 1 < p.1.below)
            (party_in (map arrival_data arrivals.now) self.now.pending) }
    {
        for place in 0..arrivals.len() {
            if self.pending[place] && arrivals[place].below <= turn + 1 {
                return true;
            }
        }
        false
    }

    /// The first turn after this one in which one of the arrivals that are to come may come; `far`
    /// if none may come before.
    pub(crate) fn next_turn(&self, arrivals: &[Arrival], turn: u32, far: u32) -> u32
        requires few { length arrivals.now ≤ 8 }
        requires early { turn ≤ 1000000000 }
        requires far { turn < far }
        ensures later { turn < result }
        ensures within { result ≤ far }
        ensures none { (t : ℕ) → turn < t → t < result → All (λ p.
            may_come_in p.1 t ≡ false)
            (party_in (map arrival_data arrivals.now) self.now.pending) }
    {
        let mut next = far;
        for place in 0..arrivals.len() {
            if self.pending[place] {
                next = next.min(arrivals[place].first.max(turn + 1));
            }
        }
        next
    }
}
