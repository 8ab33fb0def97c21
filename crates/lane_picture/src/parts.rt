//! What a picture is made of.

/// A column of turns of a task. It has the number of turns of each activity, in the order runs,
/// ready, offers, awaits, listens, faulted, stopped; and whether the task faulted or was born in
/// one of the turns.
#[derive(Clone, Copy)]
pub struct Cell {
    pub turns: [u32; 7],
    pub faulted: bool,
    pub born: bool,
}

/// An open call: its number, the index of its server, and the turn of the offer.
#[derive(Clone, Copy)]
pub struct AskedCall {
    pub call: u32,
    pub server: u16,
    pub since: u32,
}

/// A closed call: the index of its server, the turn of the offer, and the number of turns for which
/// it was open.
#[derive(Clone, Copy)]
pub struct Longest {
    pub server: u16,
    pub from: u32,
    pub turns: u32,
}

/// The calls of a task: how many it offered, which one is open, and the longest of the closed ones
/// (the first one, if several are as long).
#[derive(Clone, Copy)]
pub struct TaskCalls {
    pub count: u64,
    pub asked: Option<AskedCall>,
    pub longest: Option<Longest>,
}

/// What an arrow shows.
#[derive(Clone, Copy)]
pub enum ArrowKind {
    /// A call, from the turn of its offer to the turn in which it was taken.
    Call,
    /// A reply.
    Answer,
    /// The end of a call without a reply.
    Break,
}

/// An arrow from a task in a turn to a task in a turn.
#[derive(Clone, Copy)]
pub struct Arrow {
    pub way: ArrowKind,
    pub from: u16,
    pub at: u32,
    pub to: u16,
    pub until: u32,
}

/// What a picture shows.
#[derive(Clone, Copy)]
pub struct LanePicture<'a> {
    pub title: &'a str,
    /// How the run ended.
    pub ending: &'a str,
    pub turns: u32,
    pub ticks: u64,
    /// How many turns a column has.
    pub column_turns: u32,
    /// The names of the tasks.
    pub names: &'a [String],
    /// For each column, the number of turns in which something came from outside.
    pub outside: &'a [u32],
    /// The cells of all tasks, column after column.
    pub cells: &'a [Cell],
    /// The calls of each task.
    pub calls: &'a [TaskCalls],
    /// All arrows, or the first ones; `all_arrows` is how many there are.
    pub arrows: &'a [Arrow],
    pub all_arrows: u64,
    /// What happened to tasks, in words: all events, or the first ones; `all_events` is how many
    /// there are.
    pub events: &'a [String],
    pub all_events: u64,
}
