//! Which arrivals of a question come.
ghost use Rattle.std.specs.Prelude.{◌≡◌, ◌≤◌, ◌<◌, ◌+◌, ◌^◌, ◌++◌, length, map, drop, IfOk, OnOk};
ghost use Rattle.run_question.specs.Questions.{arrival_data};
ghost use Rattle.explore_core.specs.Parties.{party_of, parties_of};
ghost use Rattle.explore_core.specs.Walked.{parties, placed};

use run_question::Arrival;
use std::alloc::{AllocError, Global};

/// The bits of a party, with that of the arrival at a place.
#[tactic(auto, using(crate::proofs::Party::bit_is, crate::proofs::Party::fits_more))]
fn with_place(bits: u8, place: usize) -> u8
    requires place { place < 8 }
    requires bits { bits < 2 ^ place }
    ensures more { result ≡ bits + 2 ^ place }
    ensures small { result < 2 ^ (place + 1) }
{
    bits + (1 << place)
}

/// Adds the parties that have the arrivals of `bits` and, from a place on, `some` of those that may
/// fail and all others.
fn push_parties(
    list: &mut Vec<u8>,
    arrivals: &[Arrival],
    place: usize,
    some: usize,
    bits: u8,
) -> Result<(), AllocError>
    requires few { length arrivals.now ≤ 8 }
    requires place { place ≤ length arrivals.now }
    requires bits { bits < 2 ^ place }
    ensures { OnOk result (map (party_of (map arrival_data arrivals.now)) list.new.items
        ≡ map (party_of (map arrival_data arrivals.now)) list.old.items
        ++ map (λ more. party_of (map arrival_data arrivals.now) bits ++ more)
        (parties some (placed (drop place (map arrival_data arrivals.now)) place))) }
{
    if place == arrivals.len() {
        if some == 0 {
            list.push(bits)?;
        }
        return Ok(());
    }
    let with_it = with_place(bits, place);
    if !arrivals[place].may_fail {
        return push_parties(list, arrivals, place + 1, some, with_it);
    }
    if 0 < some {
        push_parties(list, arrivals, place + 1, some - 1, with_it)?;
    }
    push_parties(list, arrivals, place + 1, some, bits)
}

/// The parties of some arrivals in their order, each by bits: the lowest bit is the first
/// arrival's.
///
/// # Errors
///
/// Only if memory runs out.
pub(crate) fn all_parties(alloc: Global, arrivals: &[Arrival]) -> Result<Vec<u8>, AllocError>
    requires { length arrivals.now ≤ 8 }
    ensures all { IfOk result (λ list. map (party_of (map arrival_data arrivals.now)) list.items
        ≡ parties_of (map arrival_data arrivals.now)) }
    ensures few { IfOk result (λ list. length list.items ≤ 256) }
{
    let mut list = Vec::new(alloc);
    for some in 0..arrivals.len() + 1 {
        push_parties(&mut list, arrivals, 0, some, 0)?;
    }
    Ok(list)
}
