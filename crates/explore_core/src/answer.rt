//! Pushes the answer to a question (docs/EXPLORE.md, Exploration), piece by piece.
ghost use Rattle.std.specs.Prelude.{◌≡◌, ◌<◌, ◌≤◌, ◌+◌, ◌++◌, ◌∷◌, [], if◌then◌else◌, codes, decimal, length, map, sum_by, IfOk, IfSome};
ghost use Rattle.std.specs.List.{All, flat_map};
ghost use Rattle.std.specs.Option.{option_map};
ghost use Rattle.outside_io.specs.Outside.{HasCause, Pushes};
ghost use Rattle.run_question.specs.Questions.{arrival_data, offer_data, question_data, stated_data};
ghost use Rattle.run_question.specs.Reading.{choice_count, schedule_count, way_count};
ghost use Rattle.run_script.specs.Events.{script_data};
ghost use Rattle.run_script.specs.Laying.{HasRoom};
ghost use Rattle.run_script.specs.Scripts.{ticks_of};
ghost use Rattle.run_script.specs.Texts.{event_line, event_text, period_line, script_text};
ghost use Rattle.explore_core.specs.Answers.{Asking, broken_line, byte_word, byte_words, explored_text, is_any_broken, schedule_words, schedules_line, way_word};
ghost use Rattle.explore_core.specs.Exploring.{AreScripts};
ghost use Rattle.explore_core.specs.Fine.{IsFine, IsFineArrival, IsFineOffer};
ghost use Rattle.explore_core.specs.Found.{IsAnswered};
ghost use Rattle.explore_core.specs.Schedules.{how_many};
ghost use Rattle.explore_core.specs.Telling.{AreLaid, answer_line, answer_lines, first_ways, found_script, found_text};
ghost use Rattle.explore_core.specs.Ways.{chosen, coming_of, schedule_in};

use crate::found::{Answer, Found};
use crate::given::Given;
use crate::laying::{choice_count, chosen_event, lay_ways};
use crate::ways::{Way, Ways};
use arrayvec::ArrayString;
use outside_io::{Failed, Sink};
use run_question::{Arrival, Offer, Stated};
use run_script::{Event, Script};
use trace_text::push_decimal;

/// A piece of a line, of up to 40 bytes.
type Piece = ArrayString<160>;

fn push_piece<S: Sink>(piece: &Piece, out: &mut S) -> Result<(), Failed>
    ensures bytes { Pushes (S.seen out.old).written (S.seen out.new).written piece.now.bytes
        result }
    ensures cause { HasCause (S.seen out.old).faults (S.seen out.new).faults result }
{
    out.push(piece.as_str().as_bytes())
}

/// In how many ways an arrival comes or does not.
fn way_count(arrival: &Arrival) -> u64
    requires fine { IsFineArrival (arrival_data arrival.now) }
    requires few { way_count (arrival_data arrival.now) ≤ 1000000000000000000 }
    ensures { result ≡ way_count (arrival_data arrival.now) }
{
    let turns = u64::from(arrival.below - arrival.first);
    turns * choice_count(&arrival.offers) + u64::from(arrival.may_fail)
}

/// How many schedules there are.
fn how_many(arrivals: &[Arrival]) -> u64
    requires fine { All IsFineArrival (map arrival_data arrivals.now) }
    requires few { schedule_count (map arrival_data arrivals.now) ≤ 1000000000000000000 }
    ensures { result ≡ how_many (map arrival_data arrivals.now) }
{
    let mut count = 1;
    for arrival in arrivals {
        count *= way_count(arrival);
    }
    count
}

/// Pushes the line that says how many schedules there are.
fn push_how_many<S: Sink>(count: u64, out: &mut S) -> Result<(), Failed>
    ensures bytes { Pushes (S.seen out.old).written (S.seen out.new).written
        (schedules_line count) result }
    ensures cause { HasCause (S.seen out.old).faults (S.seen out.new).faults result }
{
    let mut piece = Piece::new();
    piece.push_str("# ");
    push_decimal(&mut piece, count);
    piece.push_str(" schedules\n");
    push_piece(&piece, out)
}

/// Pushes the byte of an event, if it is one of several of the offer.
fn push_byte<S: Sink>(offer: &Offer, event: Event, out: &mut S) -> Result<(), Failed>
    ensures bytes { Pushes (S.seen out.old).written (S.seen out.new).written
        (byte_word (offer_data offer.now) event) result }
    ensures cause { HasCause (S.seen out.old).faults (S.seen out.new).faults result }
{
    match event {
        Event::Tick | Event::Irq { .. } => Ok(()),
        Event::Feed { byte, .. } => {
            if offer.events.len() == 1 {
                return Ok(());
            }
            let mut piece = Piece::new();
            piece.push_str(":");
            push_decimal(&mut piece, u64::from(byte));
            push_piece(&piece, out)
        }
    }
}

/// Pushes the bytes of a choice that are one of several.
fn push_bytes<S: Sink>(offers: &[Offer], choice: u64, out: &mut S) -> Result<(), Failed>
    requires fine { All IsFineOffer (map offer_data offers.now) }
    requires few { choice_count (map offer_data offers.now) ≤ 1000000000000000000 }
    ensures bytes { Pushes (S.seen out.old).written (S.seen out.new).written
        (byte_words (map offer_data offers.now) (chosen (map offer_data offers.now) choice))
        result }
    ensures cause { HasCause (S.seen out.old).faults (S.seen out.new).faults result }
{
    let mut behind = choice_count(offers);
    for offer in offers {
        behind /= offer.events.len() as u64;
        push_byte(offer, chosen_event(offer, choice, behind), out)?;
    }
    Ok(())
}

fn push_coming<S: Sink>(arrival: &Arrival, way: Way, out: &mut S) -> Result<(), Failed>
    requires fine { IsFineArrival (arrival_data arrival.now) }
    ensures bytes { Pushes (S.seen out.old).written (S.seen out.new).written
        (codes " " ++ decimal way.turn ++ byte_words (arrival_data arrival.now).offers
        (chosen (arrival_data arrival.now).offers way.choice)) result }
    ensures cause { HasCause (S.seen out.old).faults (S.seen out.new).faults result }
{
    let mut turn = Piece::new();
    turn.push_str(" ");
    push_decimal(&mut turn, u64::from(way.turn));
    push_piece(&turn, out)?;
    push_bytes(&arrival.offers, way.choice, out)
}

/// Pushes how an arrival comes; `-` if it does not.
fn push_way<S: Sink>(arrival: &Arrival, way: Option<Way>, out: &mut S) -> Result<(), Failed>
    requires fine { IsFineArrival (arrival_data arrival.now) }
    ensures bytes { Pushes (S.seen out.old).written (S.seen out.new).written
        (way_word (arrival_data arrival.now) (option_map (coming_of (arrival_data arrival.now))
        way)) result }
    ensures cause { HasCause (S.seen out.old).faults (S.seen out.new).faults result }
{
    match way {
        None => out.push(b" -"),
        Some(way) => push_coming(arrival, way, out),
    }
}

/// Pushes how each arrival comes.
fn push_ways<S: Sink>(arrivals: &[Arrival], ways: &Ways, out: &mut S) -> Result<(), Failed>
    requires fine { All IsFineArrival (map arrival_data arrivals.now) }
    requires few { length arrivals.now ≤ 8 }
    ensures bytes { Pushes (S.seen out.old).written (S.seen out.new).written
        (schedule_words (map arrival_data arrivals.now)
        (schedule_in (map arrival_data arrivals.now) ways.now)) result }
    ensures cause { HasCause (S.seen out.old).faults (S.seen out.new).faults result }
{
    for place in 0..arrivals.len() {
        push_way(&arrivals[place], ways[place], out)?;
    }
    Ok(())
}

fn push_turn<S: Sink>(turn: u32, out: &mut S) -> Result<(), Failed>
    ensures bytes { Pushes (S.seen out.old).written (S.seen out.new).written
        (codes "; turn " ++ decimal turn ++ codes ", arrivals") result }
    ensures cause { HasCause (S.seen out.old).faults (S.seen out.new).faults result }
{
    let mut piece = Piece::new();
    piece.push_str("; turn ");
    push_decimal(&mut piece, u64::from(turn));
    piece.push_str(", arrivals");
    push_piece(&piece, out)
}

/// Pushes the line of a property that is broken.
fn push_broken<S: Sink>(
    arrivals: &[Arrival],
    words: &[u8],
    found: &Found,
    out: &mut S,
) -> Result<(), Failed>
    requires fine { All IsFineArrival (map arrival_data arrivals.now) }
    requires few { length arrivals.now ≤ 8 }
    ensures bytes { Pushes (S.seen out.old).written (S.seen out.new).written
        (broken_line words.now found.now.turn (schedule_words (map arrival_data arrivals.now)
        (schedule_in (map arrival_data arrivals.now) found.now.ways))) result }
    ensures cause { HasCause (S.seen out.old).faults (S.seen out.new).faults result }
{
    out.push(b"# broken ")?;
    out.push(words)?;
    push_turn(found.turn, out)?;
    push_ways(arrivals, &found.ways, out)?;
    out.push(b"\n")
}

/// Pushes a line of some words behind others.
fn push_kept<S: Sink>(front: &[u8], words: &[u8], out: &mut S) -> Result<(), Failed>
    ensures bytes { Pushes (S.seen out.old).written (S.seen out.new).written
        (front.now ++ words.now ++ codes "\n") result }
    ensures cause { HasCause (S.seen out.old).faults (S.seen out.new).faults result }
{
    out.push(front)?;
    out.push(words)?;
    out.push(b"\n")
}

/// Pushes the line of a property.
fn push_line<S: Sink>(
    arrivals: &[Arrival],
    words: &[u8],
    answer: &Answer,
    out: &mut S,
) -> Result<(), Failed>
    requires fine { All IsFineArrival (map arrival_data arrivals.now) }
    requires few { length arrivals.now ≤ 8 }
    ensures bytes { Pushes (S.seen out.old).written (S.seen out.new).written
        (answer_line (map arrival_data arrivals.now) words.now answer.now) result }
    ensures cause { HasCause (S.seen out.old).faults (S.seen out.new).faults result }
{
    match answer {
        Answer::Holds => push_kept(b"# holds ", words, out),
        Answer::Unasked => push_kept(b"# unasked ", words, out),
        Answer::Broken(found) => push_broken(arrivals, words, found, out),
    }
}

/// Pushes a line for each property.
fn push_lines<S: Sink>(
    arrivals: &[Arrival],
    properties: &[Stated],
    answers: &[Answer],
    out: &mut S,
) -> Result<(), Failed>
    requires fine { All IsFineArrival (map arrival_data arrivals.now) }
    requires few { length arrivals.now ≤ 8 }
    requires each { length answers.now ≡ length properties.now }
    ensures bytes { Pushes (S.seen out.old).written (S.seen out.new).written
        (answer_lines (map arrival_data arrivals.now) (map stated_data properties.now) answers.now)
        result }
    ensures cause { HasCause (S.seen out.old).faults (S.seen out.new).faults result }
{
    for i in 0..answers.len() {
        push_line(arrivals, properties[i].words.as_slice(), &answers[i], out)?;
    }
    Ok(())
}

/// The schedule of the first property that is broken.
fn first_ways(answers: &[Answer]) -> Option<Ways>
    ensures { result ≡ first_ways answers.now }
{
    for answer in answers {
        match answer {
            Answer::Broken(found) => return Some(found.ways),
            Answer::Holds | Answer::Unasked => {}
        }
    }
    None
}

/// Whether a script has a tick of its `every` in a turn: then more happens than is listed for it.
fn has_tick(script: &Script, turn: u32) -> bool
    ensures { ticks_of (script_data script.now).every turn ≡
        (if result then Event.Tick ∷ [] else []) }
{
    script.facts();
    let first = script.first_listed(0, turn);
    let behind = script.first_listed_after(first, turn);
    script.event_at(turn, (behind - first) as u32).is_some()
}

/// The period of a script's `every`: the first turn that has its tick. A script's period is at most
/// 1,000,000,000, and only turns below are turns of a run.
fn period(script: &Script) -> Option<u32>
    ensures { result ≡ (script_data script.now).every }
{
    if !script.has_every() {
        return None;
    }
    script.facts();
    let mut from = 1;
    'turns: while let Some(turn) = script.next(from) {
        if has_tick(script, turn) {
            return Some(turn);
        }
        from = turn + 1;
    }
    Some(1_000_000_000)
}

/// Pushes the line of a script's `every`, if it has one.
fn push_every<S: Sink>(script: &Script, out: &mut S) -> Result<(), Failed>
    ensures bytes { Pushes (S.seen out.old).written (S.seen out.new).written
        (period_line (script_data script.now).every) result }
    ensures cause { HasCause (S.seen out.old).faults (S.seen out.new).faults result }
{
    match period(script) {
        None => Ok(()),
        Some(period) => {
            let mut piece = Piece::new();
            piece.push_str("every ");
            push_decimal(&mut piece, u64::from(period));
            piece.push_str(" tick\n");
            push_piece(&piece, out)
        }
    }
}

/// Appends how a script names an event.
fn append_event(event: Event, piece: &mut Piece)
    requires { length piece.old.bytes ≤ 40 }
    ensures bytes { piece.new.bytes ≡ piece.old.bytes ++ event_text event }
    ensures short { length piece.new.bytes ≤ 100 }
{
    match event {
        Event::Tick => piece.push_str("tick"),
        Event::Irq { line } => {
            piece.push_str("irq ");
            push_decimal(piece, u64::from(line));
        }
        Event::Feed { device, byte } => {
            piece.push_str("in ");
            push_decimal(piece, u64::from(device));
            piece.push_str(" ");
            push_decimal(piece, u64::from(byte));
        }
    }
}

/// The line of an event.
fn event_line(listed: (u32, Event)) -> Piece
    ensures { result.bytes ≡ event_line listed }
{
    let mut line = Piece::new();
    line.push_str("at ");
    push_decimal(&mut line, u64::from(listed.0));
    line.push_str(" ");
    append_event(listed.1, &mut line);
    line.push_str("\n");
    line
}

/// Pushes a line for each listed event.
fn push_events<S: Sink>(script: &Script, out: &mut S) -> Result<(), Failed>
    ensures bytes { Pushes (S.seen out.old).written (S.seen out.new).written
        (flat_map event_line (script_data script.now).events) result }
    ensures cause { HasCause (S.seen out.old).faults (S.seen out.new).faults result }
{
    for place in 0..script.count() {
        if let Some(listed) = script.listed_event(place) {
            push_piece(&event_line(listed), out)?;
        }
    }
    Ok(())
}

/// Pushes the text of a script.
fn push_script<S: Sink>(script: &Script, out: &mut S) -> Result<(), Failed>
    ensures bytes { Pushes (S.seen out.old).written (S.seen out.new).written
        (script_text (script_data script.now)) result }
    ensures cause { HasCause (S.seen out.old).faults (S.seen out.new).faults result }
{
    push_every(script, out)?;
    push_events(script, out)
}

/// Pushes the script of the first schedule of the first property that is broken, if one is.
fn push_first<S: Sink>(
    given: &Given,
    answers: &[Answer],
    spare: &mut Script,
    out: &mut S,
) -> Result<(), Failed>
    requires fine { IsFine (question_data given.now.question) }
    requires laid { IfSome (first_ways answers.now) (AreLaid (script_data given.now.script)
        (question_data given.now.question).arrivals) }
    requires room { HasRoom spare.old (length (script_data given.now.script).events +
        sum_by (λ a. length a.offers) (question_data given.now.question).arrivals) }
    ensures bytes { Pushes (S.seen out.old).written (S.seen out.new).written
        (found_script (script_data given.now.script) (question_data given.now.question).arrivals
        (first_ways answers.now)) result }
    ensures cause { HasCause (S.seen out.old).faults (S.seen out.new).faults result }
{
    match first_ways(answers) {
        None => Ok(()),
        Some(ways) => {
            lay_ways(spare, &given.script, &given.question.arrivals, &ways);
            push_script(spare, out)
        }
    }
}

/// Pushes all lines of the answer.
fn push_text<S: Sink>(
    given: &Given,
    answers: &[Answer],
    spare: &mut Script,
    out: &mut S,
) -> Result<(), Failed>
    requires fine { IsFine (question_data given.now.question) }
    requires each { length answers.now ≡ length given.now.question.properties.items }
    requires laid { IfSome (first_ways answers.now) (AreLaid (script_data given.now.script)
        (question_data given.now.question).arrivals) }
    requires room { HasRoom spare.old (length (script_data given.now.script).events +
        sum_by (λ a. length a.offers) (question_data given.now.question).arrivals) }
    ensures bytes { Pushes (S.seen out.old).written (S.seen out.new).written
        (found_text (script_data given.now.script) (question_data given.now.question) answers.now)
        result }
    ensures cause { HasCause (S.seen out.old).faults (S.seen out.new).faults result }
{
    push_how_many(how_many(&given.question.arrivals), out)?;
    push_lines(
        &given.question.arrivals,
        &given.question.properties,
        answers,
        out,
    )?;
    push_first(given, answers, spare, out)
}

/// Pushes the answer to a question: how many schedules there are, a line for each property, and the
/// script of the first schedule of the first property that is broken. Then it flushes the sink.
/// Returns whether a property is broken.
pub(crate) fn push_answer<S: Sink>(
    given: &Given,
    answers: &[Answer],
    spare: &mut Script,
    out: &mut S,
) -> Result<bool, Failed>
    requires answered { (a : Asking) × IsAnswered a given.now answers.now × IsFine a.question
        × AreScripts a }
    requires room { HasRoom spare.old (length (script_data given.now.script).events +
        sum_by (λ a. length a.offers) (question_data given.now.question).arrivals) }
    ensures text { (a : Asking) → IsAnswered a given.now answers.now →
        Pushes (S.seen out.old).written (S.seen out.new).written (explored_text a) result }
    ensures broken { (a : Asking) → IsAnswered a given.now answers.now →
        IfOk result (λ b. b ≡ is_any_broken a) }
    ensures cause { HasCause (S.seen out.old).faults (S.seen out.new).faults result }
{
    push_text(given, answers, spare, out)?;
    out.flush()?;
    Ok(first_ways(answers).is_some())
}
