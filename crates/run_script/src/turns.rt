//! The events of a script, turn by turn.

ghost use Rattle.std.specs.Prelude.{◌≡◌, ◌≤◌, ◌+◌, ◌-◌, ◌<◌, ◌==◌, ◌&&◌, ◌++◌, length, nat_lt, nat_le, IfOk, IfSome, OnSome, slice_get, ℕ, slice_index_or, List, ◌∷◌, [], Some, true, false, if◌then◌else◌};
ghost use Rattle.std.specs.List.{list_any};
ghost use Rattle.std.specs.List.Sorted.{IsNonDecreasingBy};
ghost use Rattle.run_script.specs.Events.{script_data};
ghost use Rattle.run_script.specs.Facts.{Facts, HasDevice, HasLine, IsPeriod, IsTurn};
ghost use Rattle.run_script.specs.Next.{IsNextBy};
ghost use Rattle.run_script.specs.Scripts.{Listed, IsNext, IsFirstListed, events_of, lasts, listed_of, ticks_of};

use crate::events::Event;
use crate::script::Script;
use std::alloc::{AllocError, Global};

/// The index of the first listed event of this turn or a later one, or the number of listed events
/// if there is none.
pub(crate) fn first_of(script: &Script, turn: u32) -> usize
    ensures { IsFirstListed (script_data script.now) turn result }
{
    script
        .events
        .as_slice()
        .partition_point(|listed| listed.0 < turn)
}

/// Whether `at` is what `first_of` returns for the turn.
fn is_first(events: &[(u32, Event)], at: usize, turn: u32) -> bool
    ensures within { result ≡ true → at ≤ length events.now }
    ensures before { result ≡ true → 0 < at → (d : Listed) →
        nat_lt (slice_index_or events.now (at - 1) d).0 turn ≡ true }
    ensures from { result ≡ true → at < length events.now → (d : Listed) →
        nat_lt (slice_index_or events.now at d).0 turn ≡ false }
{
    at <= events.len()
        && (at == 0 || events[at - 1].0 < turn)
        && (at == events.len() || events[at].0 >= turn)
}

/// The same as `first_of`, with a guess that is usually right. The guess is tested, so a wrong one
/// only costs time.
fn first_by(script: &Script, guess: usize, turn: u32) -> usize
    ensures { IsFirstListed (script_data script.now) turn result }
{
    if is_first(script.events.as_slice(), guess, turn) {
        guess
    } else {
        first_of(script, turn)
    }
}

/// The same for the next turn, from the index for this one.
fn first_after(script: &Script, first: usize, turn: u32) -> usize
    requires { IsFirstListed (script_data script.now) turn first }
    ensures { IsFirstListed (script_data script.now) (turn + 1) result }
{
    let events = script.events.as_slice();
    let mut at = first;
    'on: while at < events.len() && events[at].0 <= turn {
        at += 1;
    }
    at
}

/// The k-th listed event of a turn, from the index of the first listed event from that turn on.
pub(crate) fn listed_at(script: &Script, first: usize, turn: u32, k: u32) -> Option<Event>
    requires { IsFirstListed (script_data script.now) turn first }
    ensures { result ≡ slice_get (listed_of turn (script_data script.now).events) k }
{
    let at = first + k as usize;
    let events = script.events.as_slice();
    if at < events.len() && events[at].0 == turn {
        Some(events[at].1)
    } else {
        None
    }
}

/// Whether the turn has the tick of `every`.
fn has_tick(script: &Script, turn: u32) -> bool
    ensures { ticks_of (script_data script.now).every turn ≡
        (if result then Event.Tick ∷ [] else []) }
{
    match script.every {
        None => false,
        Some(period) => turn > 0 && turn % period == 0,
    }
}

/// The k-th event of a turn, from the index of the first listed event from that turn on.
fn event_of(script: &Script, first: usize, turn: u32, k: u32) -> Option<Event>
    requires { IsFirstListed (script_data script.now) turn first }
    ensures { result ≡ slice_get (events_of (script_data script.now) turn) k }
{
    if has_tick(script, turn) {
        if k == 0 {
            Some(Event::Tick)
        } else {
            listed_at(script, first, turn, k - 1)
        }
    } else {
        listed_at(script, first, turn, k)
    }
}

/// A run has fewer turns.
pub(crate) const TURNS: u32 = 1_000_000_000;

/// The turn, but 1 for turn 0.
fn from_1(turn: u32) -> u32
    ensures same { turn ≤ result }
    ensures some { 0 < result }
    ensures least { (t : ℕ) → turn ≤ t → 0 < t → result ≤ t }
    ensures small { result ≤ turn + 1 }
    ensures run { turn < 1000000000 → result < 1000000000 }
{
    if turn == 0 { 1 } else { turn }
}

/// The next multiple of a period above 0 and from turn `from` on.
fn next_multiple(period: u32, from: u32) -> Option<u32>
    requires { IsPeriod period }
    ensures { IsNextBy (ticks_of (Some period)) from result }
{
    if from >= TURNS {
        return None;
    }
    let turn = (from_1(from) + (period - 1)) / period * period;
    if turn < TURNS { Some(turn) } else { None }
}

/// The next tick of `every` from turn `from` on.
fn next_tick(script: &Script, from: u32) -> Option<u32>
    ensures { IsNextBy (ticks_of (script_data script.now).every) from result }
{
    match script.every {
        None => None,
        Some(period) => next_multiple(period, from),
    }
}

/// The turn of the listed event at an index, if there is one; it is turn `from` or later.
fn next_listed(script: &Script, at: usize, from: u32) -> Option<u32>
    requires { IsFirstListed (script_data script.now) from at }
    ensures { IsNextBy (λ turn. listed_of turn (script_data script.now).events) from result }
{
    let events = script.events.as_slice();
    if at < events.len() {
        Some(events[at].0)
    } else {
        None
    }
}

/// The earlier of two turns, either of which may be missing.
fn lesser(one: Option<u32>, other: Option<u32>) -> Option<u32>
    ensures { (happens too : ℕ → List Event) (from : ℕ) → IsNextBy happens from one →
        IsNextBy too from other → IsNextBy (λ turn. happens turn ++ too turn) from result }
{
    match (one, other) {
        (None, other) => other,
        (Some(turn), None) => Some(turn),
        (Some(turn), Some(next)) => Some(if turn < next { turn } else { next }),
    }
}

/// The next turn, from turn `from` on, in which anything happens, from the index of the first
/// listed event from there on.
fn next_of(script: &Script, first: usize, from: u32) -> Option<u32>
    requires { IsFirstListed (script_data script.now) from first }
    ensures { IsNext (script_data script.now) from result }
{
    lesser(next_tick(script, from), next_listed(script, first, from))
}

/// Whether the last event is of turn `from` or later.
fn lists_from(events: &[(u32, Event)], from: u32) -> bool
    requires { IsNonDecreasingBy (λ (listed : Listed). listed.0) events.now }
    ensures { result ≡ list_any (λ listed. nat_le from listed.0) events.now }
{
    let n = events.len();
    n > 0 && from <= events[n - 1].0
}

impl Script {
    /// The facts that are true of each script, and of each turn.
    pub fn facts(&self)
        ensures script { Facts (script_data self.now) }
        ensures turn { (turn : ℕ) → IsTurn (events_of (script_data self.now) turn) }
    {}

    /// The index of the first listed event of this turn or a later one, or the number of listed
    /// events if there is none. A guess that is right saves the search.
    pub fn first_listed(&self, guess: usize, turn: u32) -> usize
        ensures { IsFirstListed (script_data self.now) turn result }
    {
        first_by(self, guess, turn)
    }

    /// The same for the next turn, from the index for this one.
    pub fn first_listed_after(&self, first: usize, turn: u32) -> usize
        requires { IsFirstListed (script_data self.now) turn first }
        ensures { IsFirstListed (script_data self.now) (turn + 1) result }
    {
        first_after(self, first, turn)
    }

    /// The k-th event of a turn, from 0: the tick if there is one, then the listed events in order;
    /// `None` past the last one.
    pub fn event_at(&self, turn: u32, k: u32) -> Option<Event>
        ensures event { result ≡ slice_get (events_of (script_data self.now) turn) k }
        ensures few { OnSome result (k < 9) }
        ensures line { IfSome result HasLine }
        ensures device { IfSome result HasDevice }
    {
        self.event_from(first_of(self, turn), turn, k)
    }

    /// The same, from the index of the first listed event from that turn on, which saves a search.
    pub fn event_from(&self, first: usize, turn: u32, k: u32) -> Option<Event>
        requires { IsFirstListed (script_data self.now) turn first }
        ensures event { result ≡ slice_get (events_of (script_data self.now) turn) k }
        ensures few { OnSome result (k < 9) }
        ensures line { IfSome result HasLine }
        ensures device { IfSome result HasDevice }
    {
        event_of(self, first, turn, k)
    }

    /// The next turn, from turn `from` on and below 1,000,000,000, in which anything happens;
    /// `None` if there is none.
    pub fn next(&self, from: u32) -> Option<u32>
        ensures { IsNext (script_data self.now) from result }
    {
        next_of(self, first_of(self, from), from)
    }

    /// The same, from the index of the first listed event from turn `from` on.
    pub fn next_from(&self, first: usize, from: u32) -> Option<u32>
        requires { IsFirstListed (script_data self.now) from first }
        ensures { IsNext (script_data self.now) from result }
    {
        next_of(self, first, from)
    }

    /// A copy of the script.
    ///
    /// # Errors
    ///
    /// Only if memory runs out.
    pub fn copy(&self, alloc: Global) -> Result<Script, AllocError>
        ensures { IfOk result (λ copy. script_data copy ≡ script_data self.now) }
    {
        Ok(Script {
            every: self.every,
            events: Vec::from_slice(alloc, &self.events)?,
        })
    }

    /// Whether anything happens in turn `from` or later: a listed event, or an `every`.
    pub fn lasts(&self, from: u32) -> bool
        ensures { result ≡ lasts (script_data self.now) from }
    {
        self.every.is_some() || lists_from(self.events.as_slice(), from)
    }
}
