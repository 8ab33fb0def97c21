//! An instruction that was fetched from memory.
use thumb_insn::Insn;

/// An instruction that was fetched.
#[derive(Clone, Copy)]
pub struct Fetched {
    pub insn: Insn,

    /// Its halfword, or its two halfwords with the first one in the high half.
    pub code: u32,
}
