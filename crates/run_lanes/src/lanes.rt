//! What is kept of the turns so far: for each task, what it has been doing and since when, and the
//! call that it offered last.
ghost use Rattle.std.specs.Prelude.{◌≡◌, IfOk};
ghost use Rattle.run_lanes.specs.Timeline.{all_renewed, client_from, kept_none, is_of_call, offers_after, renewed, server_in, server_thread_of, activity_at};

use crate::activity::Activity;
use kernel_abi::Note;
use std::alloc::{AllocError, Global};

/// What a task has been doing since a turn.
#[derive(Clone, Copy)]
pub struct LaneStretch {
    pub activity: Activity,
    pub since: u32,
}

/// A call, and the index of its server.
#[derive(Clone, Copy)]
pub struct Offer {
    pub call: u32,
    pub server: u16,
}

/// A place for each task. They are made once, for all turns.
#[derive(Drop)]
pub struct Lanes {
    pub stretches: Vec<LaneStretch>,
    pub offers: Vec<Option<Offer>>,
}

impl Lanes {
    ghost use Rattle.run_lanes.specs.Kept.{kept_of};

    /// The lanes before the first turn, for this many tasks.
    ///
    /// # Errors
    ///
    /// Only if memory runs out.
    pub fn open(alloc: Global, tasks: usize, turn: u32) -> Result<Lanes, AllocError>
        ensures { IfOk result (λ l. kept_of l ≡ kept_none tasks turn) }
    {
        let nothing_yet = LaneStretch {
            activity: Activity::Ready,
            since: turn,
        };
        let stretches = Vec::from_elem(alloc, nothing_yet, tasks)?;
        let offers = Vec::from_elem(alloc, None, tasks)?;
        Ok(Lanes { stretches, offers })
    }
}

impl LaneStretch {
    /// What a task has been doing, after a turn in which it did this.
    pub fn renewed(&self, turn: u32, activity: Activity) -> LaneStretch
        ensures { result ≡ renewed turn self.now activity }
    {
        if self.activity.is_same(activity) {
            *self
        } else {
            LaneStretch {
                activity,
                since: turn,
            }
        }
    }
}

/// What a task does, if these are the activities of all tasks; past their end it is ready.
pub fn activity_at(activities: &[Activity], i: usize) -> Activity
    ensures { result ≡ activity_at activities.now i }
{
    if i < activities.len() {
        activities[i]
    } else {
        Activity::Ready
    }
}

/// Brings what the tasks have been doing up to date with a turn in which they did this.
pub fn renew_all(turn: u32, activities: &[Activity], stretches: &mut [LaneStretch])
    ensures { stretches.new ≡ all_renewed turn stretches.old activities.now }
{
    for i in 0..stretches.len() {
        stretches[i] = stretches[i].renewed(turn, activity_at(activities, i));
    }
}

/// Brings the calls that the tasks offered last up to date with a note.
pub fn hear(note: &Note, offers: &mut [Option<Offer>])
    ensures { offers.new ≡ offers_after offers.old note.now }
{
    match note {
        Note::Offer {
            call,
            client,
            server,
        } => {
            let i = usize::from(*client);
            if i < offers.len() {
                offers[i] = Some(Offer {
                    call: *call,
                    server: *server,
                });
            }
        }
        _ => {}
    }
}

/// The thread of the client of a call: that of the first task that offered it last; 0 if there is
/// none.
pub fn client_thread(offers: &[Option<Offer>], call: u32) -> u64
    ensures { result ≡ client_from call 0 offers.now }
{
    for (i, offer) in offers.iter().enumerate() {
        if is_of_call(call, offer) {
            return i as u64 + 1;
        }
    }
    0
}

/// The thread of the call's server.
pub fn server_thread(offers: &[Option<Offer>], call: u32) -> u64
    ensures { result ≡ server_in call offers.now }
{
    for offer in offers {
        if is_of_call(call, offer) {
            return server_thread_of(offer);
        }
    }
    0
}

fn is_of_call(call: u32, offer: &Option<Offer>) -> bool
    ensures { result ≡ is_of_call call offer.now }
{
    match offer {
        Some(offer) => offer.call == call,
        None => false,
    }
}

fn server_thread_of(offer: &Option<Offer>) -> u64
    ensures { result ≡ server_thread_of offer.now }
{
    match offer {
        Some(offer) => u64::from(offer.server) + 1,
        None => 0,
    }
}
