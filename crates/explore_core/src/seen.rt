//! States from which nothing is broken, in room that was taken before. A later one takes the place
//! of an earlier one: what is not there any more costs time alone.
ghost use Rattle.std.specs.Prelude.{◌<◌, vec_len};

/// How many properties are looked for at most.
pub(crate) const MOST: usize = 16;

/// A state in bytes, of a run before a turn, which arrivals are still to come from there, and what
/// was kept of the run for each property.
#[derive(Drop)]
pub(crate) struct Slot {
    pub(crate) used: bool,
    pub(crate) turn: u32,
    pub(crate) pending: [bool; 8],
    pub(crate) kept: [u32; 16],
    pub(crate) state: Vec<u8>,
}

#[derive(Drop)]
pub(crate) struct Seen {
    pub(crate) slots: Vec<Slot>,
    ghost some: { 0 < vec_len slots },
}
