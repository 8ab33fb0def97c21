//! Why a question is refused beside a script and a board.
ghost use Rattle.std.specs.Prelude.{◌≡◌, ◌<◌, ◌≤◌, ◌+◌, ◌-◌, ◌==◌, length, map, slice_index, sum_by};
ghost use Rattle.std.specs.List.{count_by, list_any};
ghost use Rattle.std.specs.Option.{option_map};
ghost use Rattle.task_table.specs.model.State.{State};
ghost use Rattle.run_script.specs.Events.{script_data};
ghost use Rattle.run_question.specs.Questions.{arrival_data, offer_data, question_data, stated_data};
ghost use Rattle.board_model.specs.Script.{Scenario};
ghost use Rattle.board_core.specs.Data.{boxed};
ghost use Rattle.board_core.specs.Stands.{Stands};
ghost use Rattle.explore_core.specs.Fine.{IsFine};
ghost use Rattle.explore_core.specs.Refusals.{all_together, are_no_scripts, first_unknown, has_all_of, has_byte_at, has_changer, has_device, has_fact, has_line, has_named, has_number, has_task, has_word_at, is_late, may_be_late, most_of_turn, most_together, question_refusal, turns_listed, turns_offered};

use board_core::Board;
use mem_banks::RAM;
use run_question::{Arrival, Fact, Line, Offer, Property, Question, Stated};
use run_script::Script;
use trace_text::NoteKind;

/// The most events that a script lists of one turn.
const MOST_OF_TURN: usize = 8;

/// The most events that a script lists.
const MOST: usize = 65_536;

/// A run has no later turn.
const LAST_TURN: u64 = 999_999_999;

// ---- cause 6

/// The turn of an event that a script lists.
fn turn_at(script: &Script, place: usize) -> u32
    requires { place < length (script_data script.now).events }
    ensures { result ≡ slice_index (turns_listed (script_data script.now).events) place }
{
    match script.listed_event(place) {
        Some((turn, _)) => turn,
        None => unreachable!(),
    }
}

/// The most events that a script lists of one turn. These stand side by side.
fn most_listed(script: &Script) -> usize
    ensures most { result ≡ most_of_turn (turns_listed (script_data script.now).events) }
    ensures few { result ≤ 65536 }
{
    script.facts();
    let mut most = 0;
    let mut last = 0;
    let mut same = 0;
    for place in 0..script.count() {
        let turn = turn_at(script, place);
        same = if turn == last { same + 1 } else { 1 };
        last = turn;
        most = most.max(same);
    }
    most
}

/// How many offers are of a turn.
fn count_of(offers: &[Offer], turn: u32) -> usize
    ensures count { result ≡ count_by (λ o. o.turn == turn) offers.now }
    ensures few { result ≤ length offers.now }
{
    let mut count = 0;
    for offer in offers {
        if offer.turn == turn {
            count += 1;
        }
    }
    count
}

/// The most events of one turn that an arrival has.
fn most_offered(arrival: &Arrival) -> usize
    ensures most { result ≡ most_of_turn (turns_offered (arrival_data arrival.now)) }
    ensures few { result ≤ length (arrival_data arrival.now).offers }
{
    let mut most = 0;
    for offer in &arrival.offers {
        most = most.max(count_of(&arrival.offers, offer.turn));
    }
    most
}

/// The most events of one turn, of a script and of each arrival, together.
fn most_together(script: &Script, arrivals: &[Arrival]) -> usize
    requires few { sum_by (λ a. length a.offers) (map arrival_data arrivals.now) ≤ 256 }
    ensures { result ≡ most_together (script_data script.now) (map arrival_data arrivals.now) }
{
    let mut most = most_listed(script);
    for arrival in arrivals {
        most += most_offered(arrival);
    }
    most
}

/// How many events a script and all arrivals have.
fn all_together(script: &Script, arrivals: &[Arrival]) -> usize
    requires few { sum_by (λ a. length a.offers) (map arrival_data arrivals.now) ≤ 256 }
    ensures { result ≡ all_together (script_data script.now) (map arrival_data arrivals.now) }
{
    script.facts();
    let mut count = script.count();
    for arrival in arrivals {
        count += arrival.offers.len();
    }
    count
}

/// Whether an event comes after the last turn, so many turns behind an arrival that comes in the
/// last turn below `below`.
fn is_late(below: u32, turn: u32) -> bool
    ensures { result ≡ is_late (below - 1 + turn) }
{
    u64::from(below.saturating_sub(1)) + u64::from(turn) > LAST_TURN
}

/// Whether one of some such events does.
fn is_any_late(below: u32, offers: &[Offer]) -> bool
    ensures { result ≡ list_any (λ o. is_late (below - 1 + o.turn)) offers.now }
{
    offers.iter().any(|offer| is_late(below, offer.turn))
}

/// Whether an arrival has an event that may come after the last turn.
fn may_be_late(arrival: &Arrival) -> bool
    ensures { result ≡ may_be_late (arrival_data arrival.now) }
{
    is_any_late(arrival.below, &arrival.offers)
}

fn may_any_be_late(arrivals: &[Arrival]) -> bool
    ensures { result ≡ list_any (λ a. may_be_late (arrival_data a)) arrivals.now }
{
    arrivals.iter().any(|arrival| may_be_late(arrival))
}

/// Whether some schedule is no script.
fn are_no_scripts(script: &Script, arrivals: &[Arrival]) -> bool
    requires few { sum_by (λ a. length a.offers) (map arrival_data arrivals.now) ≤ 256 }
    ensures { result ≡ are_no_scripts (script_data script.now) (map arrival_data arrivals.now) }
{
    script.facts();
    most_together(script, arrivals) > MOST_OF_TURN
        || all_together(script, arrivals) > MOST
        || may_any_be_late(arrivals)
}

// ---- cause 7

fn has_task(board: &Board, task: usize) -> bool
    ensures { (x : Scenario) (s : State) → Stands (boxed shown) x board.now s →
        result ≡ has_task s task }
{
    task < board.task_count()
}

fn has_device(board: &Board, device: usize) -> bool
    ensures { (x : Scenario) (s : State) → Stands (boxed shown) x board.now s →
        result ≡ has_device s device }
{
    device < board.device_count()
}

fn has_byte_at(board: &Board, at: u32) -> bool
    ensures { (x : Scenario) (s : State) → Stands (boxed shown) x board.now s →
        result ≡ has_byte_at s at }
{
    board.byte(at).is_some()
}

/// Whether four bytes from an address on are all in the flash or all in the RAM.
fn has_word_at(board: &Board, at: u32) -> bool
    ensures { (x : Scenario) (s : State) → Stands (boxed shown) x board.now s →
        result ≡ has_word_at s at }
{
    match at.checked_add(3) {
        None => false,
        Some(last) => {
            has_byte_at(board, at) && has_byte_at(board, last) && (last < RAM || RAM <= at)
        }
    }
}

/// Whether there is what the first number behind a kind names, if it is a task or a device.
fn has_named(board: &Board, kind: NoteKind, number: usize) -> bool
    ensures { (x : Scenario) (s : State) → Stands (boxed shown) x board.now s →
        result ≡ has_named s kind number }
{
    match kind {
        NoteKind::Post
        | NoteKind::Call
        | NoteKind::Ret
        | NoteKind::Listen
        | NoteKind::Fault
        | NoteKind::Restart
        | NoteKind::IrqStatus => has_task(board, number),
        NoteKind::In | NoteKind::Out => has_device(board, number),
        NoteKind::Tick
        | NoteKind::Irq
        | NoteKind::Close
        | NoteKind::Offer
        | NoteKind::Take
        | NoteKind::Borrow
        | NoteKind::Find => true,
    }
}

fn has_line(board: &Board, line: &Line) -> bool
    ensures { (x : Scenario) (s : State) → Stands (boxed shown) x board.now s →
        result ≡ has_line s line.now }
{
    match line.number {
        None => true,
        Some(number) => has_named(board, line.kind, number as usize),
    }
}

fn has_fact(board: &Board, fact: Fact) -> bool
    ensures { (x : Scenario) (s : State) → Stands (boxed shown) x board.now s →
        result ≡ has_fact s fact }
{
    match fact {
        Fact::Byte { at, .. } => has_byte_at(board, at),
        Fact::Word { at, .. } => has_word_at(board, at),
        Fact::Task { task, .. } => has_task(board, usize::from(task)),
        Fact::Waiting { device } => has_device(board, usize::from(device)),
    }
}

/// Whether there is the task that may change a byte, if one may.
fn has_changer(board: &Board, but: Option<u16>) -> bool
    ensures { (x : Scenario) (s : State) → Stands (boxed shown) x board.now s →
        result ≡ has_changer s but }
{
    match but {
        None => true,
        Some(task) => has_task(board, usize::from(task)),
    }
}

/// Whether all that a property speaks of is there.
fn has_all_of(board: &Board, property: &Property) -> bool
    ensures { (x : Scenario) (s : State) → Stands (boxed shown) x board.now s →
        result ≡ has_all_of s property.now }
{
    match property {
        Property::NeverTold { line } => has_line(board, line),
        Property::NeverChanged { at, but } => has_byte_at(board, *at) && has_changer(board, *but),
        Property::NeverSo { condition, .. } | Property::EndsSo { condition } => {
            has_fact(board, condition.fact)
        }
        Property::EndsStill => true,
        Property::Answered { line, answer, .. } => has_line(board, line) && has_line(board, answer),
    }
}

/// The line of the first property that speaks of what there is not.
fn first_unknown(board: &Board, properties: &[Stated]) -> Option<usize>
    ensures { (x : Scenario) (s : State) → Stands (boxed shown) x board.now s → result ≡
        option_map (λ p. p.line) (first_unknown s (map stated_data properties.now)) }
{
    for stated in properties {
        if !has_all_of(board, &stated.property) {
            return Some(stated.line);
        }
    }
    None
}

// ---- the question

/// Why a question is refused beside a script and a board: cause 6 with line 0, or cause 7 with the
/// line of the first such property (docs/EXPLORE.md, Question). `None` if it is not refused.
pub fn refusal(board: &Board, script: &Script, question: &Question) -> Option<(u8, usize)>
    requires fine { IsFine (question_data question.now) }
    ensures { (x : Scenario) (s : State) → Stands (boxed shown) x board.now s →
        result ≡ question_refusal s (script_data script.now) (question_data question.now) }
{
    if are_no_scripts(script, &question.arrivals) {
        return Some((6, 0));
    }
    match first_unknown(board, &question.properties) {
        None => None,
        Some(line) => Some((7, line)),
    }
}
