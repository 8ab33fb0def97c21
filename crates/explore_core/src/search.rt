//! A search: a board on the way through all schedules, and what is found.

use crate::seen::Seen;
use crate::watch::Watch;
use crate::ways::Ways;
use board_core::Board;
use run_script::Script;

/// A board, how each arrival comes in its script, what is watched, the first schedule that breaks
/// each property, and all room that is needed but that for states at forks.
#[derive(Drop)]
pub(crate) struct Search {
    pub(crate) board: Board,
    pub(crate) ways: Ways,
    pub(crate) watch: Watch,
    pub(crate) found: [Option<Ways>; 16],
    pub(crate) seen: Seen,

    /// Room for the next script of the board.
    pub(crate) spare: Script,

    /// Room for a state that is looked for.
    pub(crate) here: Vec<u8>,
}
