//! Lays the events of a schedule over a script, in room that was taken before.
ghost use Rattle.std.specs.Prelude.{ℕ, ◌≡◌, ◌≤◌, ◌<◌, ◌+◌, ◌/◌, ◌%◌, ◌++◌, true, Some, length, map, fold, slice_index_or};
ghost use Rattle.std.specs.List.{All};
ghost use Rattle.run_question.specs.Questions.{arrival_data, offer_data};
ghost use Rattle.run_question.specs.Reading.{choice_count};
ghost use Rattle.run_script.specs.Events.{script_data};
ghost use Rattle.run_script.specs.Laying.{HasRoom};
ghost use Rattle.board_model.specs.Laid.{is_script};
ghost use Rattle.explore_core.specs.Answers.{listed_in};
ghost use Rattle.explore_core.specs.Fine.{IsFineArrival, IsFineOffer};
ghost use Rattle.explore_core.specs.Schedules.{events_of_schedule, events_of_way};
ghost use Rattle.explore_core.specs.Ways.{AreWays, coming_of, laid_by, schedule_in};

use crate::ways::{Way, Ways};
use run_question::{Arrival, Offer};
use run_script::{Event, Script};

/// How many choices there are of one event of each offer.
pub(crate) fn choice_count(offers: &[Offer]) -> u64
    requires fine { All IsFineOffer (map offer_data offers.now) }
    requires few { choice_count (map offer_data offers.now) ≤ 1000000000000000000 }
    ensures count { result ≡ choice_count (map offer_data offers.now) }
    ensures some { 0 < result }
{
    let mut count = 1;
    for offer in offers {
        count *= offer.events.len() as u64;
    }
    count
}

/// The event of an offer in a choice, if the offers behind it have so many choices.
pub(crate) fn chosen_event(offer: &Offer, choice: u64, behind: u64) -> Event
    requires some { 0 < length offer.now.events.items }
    requires behind { 0 < behind }
    ensures { result ≡ slice_index_or offer.now.events.items
        (choice / behind % length offer.now.events.items) Event.Tick }
{
    offer.events[(choice / behind % offer.events.len() as u64) as usize]
}

/// Lays the events of an arrival that comes so.
fn lay_arrival(laid: &mut Script, arrival: &Arrival, way: Way)
    requires fine { IsFineArrival (arrival_data arrival.now) }
    requires script { is_script ((script_data laid.old).events ++ events_of_way (Some (coming_of
        (arrival_data arrival.now) way))) ≡ true }
    requires room { HasRoom laid.old (length (script_data laid.old).events + length (events_of_way
        (Some (coming_of (arrival_data arrival.now) way)))) }
    ensures laid { script_data laid.new ≡ (record (script_data laid.old) {
      events = fold listed_in (script_data laid.old).events (events_of_way (Some (coming_of
          (arrival_data arrival.now) way)));
    }) }
    ensures room { (n : ℕ) → HasRoom laid.old n → HasRoom laid.new n }
{
    let mut weight = choice_count(&arrival.offers);
    for offer in &arrival.offers {
        weight /= offer.events.len() as u64;
        let event = chosen_event(offer, way.choice, weight);
        laid.add(way.turn + offer.turn, event);
    }
}

/// Lays the events of some ways over a script. In each turn they come after the script's events.
pub(crate) fn lay_ways(laid: &mut Script, script: &Script, arrivals: &[Arrival], ways: &Ways)
    requires fine { All IsFineArrival (map arrival_data arrivals.now) }
    requires few { length arrivals.now ≤ 8 }
    requires ways { AreWays 0 (map arrival_data arrivals.now) ways.now }
    requires script { is_script ((script_data script.now).events ++ events_of_schedule
        (schedule_in (map arrival_data arrivals.now) ways.now)) ≡ true }
    requires room { HasRoom laid.old (length (script_data script.now).events + length
        (events_of_schedule (schedule_in (map arrival_data arrivals.now) ways.now))) }
    ensures laid { script_data laid.new ≡ laid_by (script_data script.now)
        (schedule_in (map arrival_data arrivals.now) ways.now) }
    ensures room { (n : ℕ) → HasRoom laid.old n → HasRoom laid.new n }
    ensures count { length (script_data laid.new).events ≡ length (script_data script.now).events +
        length (events_of_schedule (schedule_in (map arrival_data arrivals.now) ways.now)) }
{
    laid.become_as(script);
    for place in 0..arrivals.len() {
        if let Some(way) = ways[place] {
            lay_arrival(laid, &arrivals[place], way);
        }
    }
}
