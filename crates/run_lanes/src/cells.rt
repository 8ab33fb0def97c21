//! The cells of columns of turns, column after column (docs/FORMATS.md, Picture): adding a turn,
//! and making one column of two neighbours.
ghost use Rattle.std.specs.Prelude.{◌≡◌, ◌≤◌, ◌<◌, ◌+◌, ◌*◌, ℕ, ◌∷◌, [], length, map, slice_index_or};
ghost use Rattle.std.specs.List.{list_any, range_with_len};
ghost use Rattle.lane_picture.specs.declared.parts.Cell.{Cell as ACell};
ghost use Rattle.lane_picture.specs.Sizes.{no_cell};
ghost use Rattle.run_lanes.specs.Columns.{is_outside, most_columns};
ghost use Rattle.run_lanes.specs.Counted.{Changed, both, counted, joined, marked, turned};
ghost use Rattle.run_lanes.specs.Timeline.{activity_at};

use crate::activity::Activity;
use crate::lanes::activity_at;
use kernel_abi::Note;
use lane_picture::Cell;

/// There is memory for this many columns.
pub const MOST_COLUMNS: usize = 1200;

/// The cell of a column without turns.
pub const NO_CELL: Cell = Cell {
    turns: [0; 7],
    faulted: false,
    born: false,
};

// Adds each count to the one of its kind.
fn add_counts(counts: &mut [u32], more: &[u32])
    requires { length more.now ≡ length counts.old }
    ensures { counts.new ≡ map (λ w. both (slice_index_or counts.old w 0)
        (slice_index_or more.now w 0)) (range_with_len 0 (length counts.old)) }
{
    for w in 0..counts.len() {
        counts[w] = counts[w].saturating_add(more[w]);
    }
}

// The cell of two columns, one after the other.
fn joined(first: &Cell, second: &Cell) -> Cell
    ensures { result ≡ joined first.now second.now }
{
    let mut turns = first.turns;
    add_counts(&mut turns, &second.turns);
    Cell {
        turns,
        faulted: first.faulted | second.faulted,
        born: first.born | second.born,
    }
}

// Counts this many more turns, in which the task does this.
fn count(cell: &mut Cell, activity: Activity, turns: u32)
    ensures { cell.new ≡ counted cell.old activity turns }
{
    let w = usize::from(activity.number());
    cell.turns[w] = cell.turns[w].saturating_add(turns);
}

/// Counts what each task does in this many more turns of the column that begins at a cell.
pub fn count_activities(
    cells: &mut [Cell],
    at: usize,
    tasks: usize,
    activities: &[Activity],
    turns: u32,
)
    requires room { at + tasks ≤ length cells.old }
    ensures { Changed cells.old cells.new at tasks
        (λ i c. counted c (activity_at activities.now i) turns) }
{
    for i in 0..tasks {
        count(&mut cells[at + i], activity_at(activities, i), turns);
    }
}

// Marks a note of a turn in that column.
fn mark(cells: &mut [Cell], at: usize, tasks: usize, note: &Note)
    requires room { at + tasks ≤ length cells.old }
    ensures { Changed cells.old cells.new at tasks (λ i c. marked (note.now ∷ []) i c) }
{
    match note {
        Note::Fault { task, .. } => {
            let i = usize::from(*task);
            if i < tasks {
                cells[at + i].faulted = true;
            }
        }
        Note::Restart { task, .. } => {
            let i = usize::from(*task);
            if i < tasks {
                cells[at + i].born = true;
            }
        }
        _ => {}
    }
}

// Marks the notes of a turn in that column.
fn mark_all(cells: &mut [Cell], at: usize, tasks: usize, notes: &[Note])
    requires room { at + tasks ≤ length cells.old }
    ensures { Changed cells.old cells.new at tasks (λ i c. marked notes.now i c) }
{
    for note in notes {
        mark(cells, at, tasks, note);
    }
}

/// Adds a turn to the column that begins at a cell, with what each task does in it and its notes.
pub fn add_turn(
    cells: &mut [Cell],
    at: usize,
    tasks: usize,
    activities: &[Activity],
    notes: &[Note],
)
    requires room { at + tasks ≤ length cells.old }
    ensures { Changed cells.old cells.new at tasks (turned activities.now notes.now) }
{
    count_activities(cells, at, tasks, activities, 1);
    mark_all(cells, at, tasks, notes);
}

// Whether a note is of something that came from outside.
fn is_outside(note: &Note) -> bool
    ensures { result ≡ is_outside note.now }
{
    match note {
        Note::Tick { .. } | Note::Irq { .. } | Note::In { .. } | Note::Out { .. } => true,
        _ => false,
    }
}

/// Whether something came from outside in a turn with these notes.
pub fn comes_from_outside(notes: &[Note]) -> bool
    ensures { result ≡ list_any is_outside notes.now }
{
    notes.iter().any(is_outside)
}

// Makes the column that begins at a cell from the one that begins at another cell and the next one.
fn join_columns(cells: &mut [Cell], at: usize, from: usize, tasks: usize)
    requires order { at ≤ from }
    requires room { from + tasks + tasks ≤ length cells.old }
    ensures { Changed cells.old cells.new at tasks
        (λ i _. joined (slice_index_or cells.old (from + i) no_cell)
        (slice_index_or cells.old (from + tasks + i) no_cell)) }
{
    for i in 0..tasks {
        cells[at + i] = joined(&cells[from + i], &cells[from + tasks + i]);
    }
}

// Empties the cells from one on.
fn clear(cells: &mut [Cell], from: usize)
    ensures as_many { length cells.new ≡ length cells.old }
    ensures before { (j : ℕ) (d : ACell) → j < from →
        slice_index_or cells.new j d ≡ slice_index_or cells.old j d }
    ensures rest { (j : ℕ) (d : ACell) → from ≤ j → j < length cells.old →
        slice_index_or cells.new j d ≡ no_cell }
{
    for j in from..cells.len() {
        cells[j] = NO_CELL;
    }
}

// Makes one column of each two neighbours, in the first half of the memory.
fn join_all(cells: &mut [Cell], tasks: usize)
    requires room { length cells.old ≡ most_columns * tasks }
    ensures as_many { length cells.new ≡ length cells.old }
    ensures made { (k i : ℕ) (d : ACell) → k < 600 → i < tasks →
        slice_index_or cells.new (k * tasks + i) d
        ≡ joined (slice_index_or cells.old (2 * k * tasks + i) no_cell)
        (slice_index_or cells.old (2 * k * tasks + tasks + i) no_cell) }
{
    for k in 0..MOST_COLUMNS / 2 {
        join_columns(cells, k * tasks, 2 * k * tasks, tasks);
    }
}

/// Makes one column of each two neighbours. The columns after them are empty.
pub fn halve(cells: &mut [Cell], tasks: usize)
    requires room { length cells.old ≡ most_columns * tasks }
    ensures as_many { length cells.new ≡ length cells.old }
    ensures made { (k i : ℕ) (d : ACell) → k < 600 → i < tasks →
        slice_index_or cells.new (k * tasks + i) d
        ≡ joined (slice_index_or cells.old (2 * k * tasks + i) no_cell)
        (slice_index_or cells.old (2 * k * tasks + tasks + i) no_cell) }
    ensures rest { (j : ℕ) (d : ACell) → 600 * tasks ≤ j → j < length cells.old →
        slice_index_or cells.new j d ≡ no_cell }
{
    join_all(cells, tasks);
    clear(cells, MOST_COLUMNS / 2 * tasks);
}

/// The same for the numbers of turns in which something came from outside.
pub fn halve_outside(outside: &mut [u32])
    requires room { length outside.old ≡ most_columns }
    ensures as_many { length outside.new ≡ length outside.old }
    ensures made { (k d : ℕ) → k < 600 →
        slice_index_or outside.new k d ≡ both (slice_index_or outside.old (2 * k) 0)
        (slice_index_or outside.old (2 * k + 1) 0) }
    ensures rest { (k d : ℕ) → 600 ≤ k → k < 1200 → slice_index_or outside.new k d ≡ 0 }
{
    for k in 0..MOST_COLUMNS / 2 {
        outside[k] = outside[2 * k].saturating_add(outside[2 * k + 1]);
    }
    for k in MOST_COLUMNS / 2..MOST_COLUMNS {
        outside[k] = 0;
    }
}
