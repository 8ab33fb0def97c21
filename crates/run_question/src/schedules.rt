//! Whether a question has more schedules than it may.

ghost use Rattle.std.specs.Prelude.{◌≡◌, ◌*◌, ◌+◌, map, nat_le};
ghost use Rattle.run_question.specs.Drafts.{capped};
ghost use Rattle.run_question.specs.Questions.{arrival_data, offer_data};
ghost use Rattle.run_question.specs.Reading.{choice_count, once_if, schedule_count, way_count};

use crate::question::{Arrival, Offer};

/// The most schedules that a question may have.
const MOST: u64 = 1_000_000_000_000_000_000;

/// What stands for every count above 10^18.
const MANY: u64 = 1_000_000_000_000_000_001;

/// A product; `MANY` where it is above 10^18.
fn times(one: u64, other: u64) -> u64
    ensures { result ≡ capped 1000000000000000000 (one * other) }
{
    match one.checked_mul(other) {
        None => MANY,
        Some(product) => if product <= MOST { product } else { MANY },
    }
}

/// One way more where an arrival may fail; `MANY` where these are above 10^18.
fn with_none(count: u64, may_fail: bool) -> u64
    ensures { result ≡ capped 1000000000000000000 (count + once_if may_fail) }
{
    if count > MOST {
        MANY
    } else if may_fail {
        count + 1
    } else {
        count
    }
}

/// So many times the choices of one event of each offer; `MANY` where these are above 10^18.
fn times_choices(count: u64, offers: &[Offer]) -> u64
    ensures { result ≡ capped 1000000000000000000
        (count * choice_count (map offer_data offers.now)) }
{
    let mut product = count;
    for offer in offers {
        product = times(product, offer.events.len() as u64);
    }
    times(product, 1)
}

/// In how many ways an arrival comes or does not; `MANY` where these are above 10^18.
fn way_count(arrival: &Arrival) -> u64
    ensures { result ≡ capped 1000000000000000000 (way_count (arrival_data arrival.now)) }
{
    let turns = u64::from(arrival.below.saturating_sub(arrival.first));
    with_none(times_choices(turns, &arrival.offers), arrival.may_fail)
}

/// Whether there are at most 10^18 schedules.
pub(crate) fn are_few(arrivals: &[Arrival]) -> bool
    ensures { result ≡ nat_le (schedule_count (map arrival_data arrivals.now)) 1000000000000000000 }
{
    let mut count = 1;
    for arrival in arrivals {
        count = times(count, way_count(arrival));
    }
    count <= MOST
}
