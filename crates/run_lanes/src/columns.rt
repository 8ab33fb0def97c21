//! What each task does in each column of turns (docs/FORMATS.md, Picture). Memory is allocated
//! once. When the 1,201st column would begin, each two neighbours become one column, in place.
ghost use Rattle.std.specs.Prelude.{◌≡◌, ◌≤◌, ◌<◌, ◌*◌, vec_len};

use crate::activity::Activity;
use crate::cells::{
    MOST_COLUMNS, NO_CELL, add_turn, comes_from_outside, count_activities, halve, halve_outside,
};
use kernel_abi::Note;
use lane_picture::Cell;
use std::alloc::{AllocError, Global};

/// The cells of all tasks in each column, and in how many turns of each column something came from
/// outside.
#[derive(Drop)]
pub struct Columns {
    pub tasks: usize,
    /// How many turns a column has.
    pub width: u32,
    /// The column of the next turn, and how many turns are in it.
    pub column: usize,
    pub inside: u32,
    pub cells: Vec<Cell>,
    pub outside: Vec<u32>,
    ghost cell_each: { vec_len cells ≡ 1200 * tasks },
    ghost outside_each: { vec_len outside ≡ 1200 },
    ghost there: { column ≤ 1200 },
    ghost more: { inside < width },
}

impl Columns {
    ghost use Rattle.std.specs.Prelude.{ℕ, ◌+◌, List, [], ◌∷◌, ◌++◌, IfOk, if◌then◌else◌, length, slice_index_or, slice_set};
    ghost use Rattle.std.specs.List.{list_any};
    ghost use Rattle.run_lanes.specs.Columned.{Columned};
    ghost use Rattle.run_lanes.specs.Columns.{cells, columns, is_outside, outside};
    ghost use Rattle.run_lanes.specs.Counted.{Changed, both, counted, turned};
    ghost use Rattle.run_lanes.specs.Timeline.{activity_at};
    ghost use Rattle.run_lanes.specs.Activities.{TurnSight, idle_turns};

    /// The columns before the first turn, for this many tasks.
    ///
    /// # Errors
    ///
    /// Only if memory runs out.
    pub fn open(alloc: Global, tasks: usize) -> Result<Columns, AllocError>
        requires { tasks ≤ 65536 }
        ensures tasks { IfOk result (λ c. c.tasks ≡ tasks) }
        ensures none { IfOk result (λ c. Columned c 0 []) }
    {
        let cells = Vec::from_elem(alloc, NO_CELL, MOST_COLUMNS * tasks)?;
        let outside = Vec::from_elem(alloc, 0, MOST_COLUMNS)?;
        Ok(Columns {
            tasks,
            width: 1,
            column: 0,
            inside: 0,
            cells,
            outside,
        })
    }

    // Makes one column of each two neighbours, if all columns are full.
    fn make_room(&mut self)
        ensures free { self.new.column < 1200 }
        ensures tasks { self.new.tasks ≡ self.old.tasks }
        ensures room { (turns : List TurnSight) → length turns < 1000000000 →
            Columned self.old (length turns) turns → Columned self.new (length turns + 1) turns }
    {
        if self.column == MOST_COLUMNS {
            halve(&mut self.cells, self.tasks);
            halve_outside(&mut self.outside);
            self.column = MOST_COLUMNS / 2;
            self.inside = 0;
            self.width = self.width.saturating_mul(2);
        }
    }

    // Adds a turn to the cells.
    fn add_cells(&mut self, activities: &[Activity], notes: &[Note])
        requires free { self.old.column < 1200 }
        ensures tasks { self.new.tasks ≡ self.old.tasks }
        ensures width { self.new.width ≡ self.old.width }
        ensures column { self.new.column ≡ self.old.column }
        ensures inside { self.new.inside ≡ self.old.inside }
        ensures cells { Changed self.old.cells.items self.new.cells.items
            (self.old.column * self.old.tasks) self.old.tasks (turned activities.now notes.now) }
        ensures outside { self.new.outside.items ≡ self.old.outside.items }
    {
        add_turn(
            &mut self.cells,
            self.column * self.tasks,
            self.tasks,
            activities,
            notes,
        );
    }

    // Counts the turn if something came from outside in it.
    fn add_outside(&mut self, notes: &[Note])
        requires free { self.old.column < 1200 }
        ensures tasks { self.new.tasks ≡ self.old.tasks }
        ensures width { self.new.width ≡ self.old.width }
        ensures column { self.new.column ≡ self.old.column }
        ensures inside { self.new.inside ≡ self.old.inside }
        ensures cells { self.new.cells.items ≡ self.old.cells.items }
        ensures outside { self.new.outside.items ≡
            (if list_any is_outside notes.now
            then slice_set self.old.outside.items self.old.column
            (both (slice_index_or self.old.outside.items self.old.column 0) 1)
            else self.old.outside.items) }
    {
        if comes_from_outside(notes) {
            let k = self.column;
            self.outside[k] = self.outside[k].saturating_add(1);
        }
    }

    // Moves on by this many turns, for which the column has room.
    fn advance(&mut self, turns: u32)
        requires free { self.old.column < 1200 }
        requires room { self.old.inside + turns ≤ self.old.width }
        ensures tasks { self.new.tasks ≡ self.old.tasks }
        ensures width { self.new.width ≡ self.old.width }
        ensures cells { self.new.cells.items ≡ self.old.cells.items }
        ensures outside { self.new.outside.items ≡ self.old.outside.items }
        ensures at { self.new.column * self.new.width + self.new.inside ≡ self.old.column *
            self.old.width + self.old.inside + turns }
    {
        if self.inside + turns == self.width {
            self.inside = 0;
            self.column += 1;
        } else {
            self.inside += turns;
        }
    }

    /// Adds a turn, with what each task does in it and its notes.
    pub fn add(&mut self, activities: &[Activity], notes: &[Note])
        ensures tasks { self.new.tasks ≡ self.old.tasks }
        ensures added { (turn : ℕ) (turns : List TurnSight) → length turns < 1000000000 →
            Columned self.old (length turns) turns →
            Columned self.new (length turns + 1) (turns ++ (record {
              turn = turn;
              activities = activities.now;
              notes = notes.now;
            } ∷ [])) }
    {
        self.make_room();
        self.add_cells(activities, notes);
        self.add_outside(notes);
        self.advance(1);
    }

    // Counts what each task does in this many turns of the column of the next turn.
    fn count_cells(&mut self, turns: u32, activities: &[Activity])
        requires free { self.old.column < 1200 }
        ensures tasks { self.new.tasks ≡ self.old.tasks }
        ensures width { self.new.width ≡ self.old.width }
        ensures column { self.new.column ≡ self.old.column }
        ensures inside { self.new.inside ≡ self.old.inside }
        ensures cells { Changed self.old.cells.items self.new.cells.items
            (self.old.column * self.old.tasks) self.old.tasks
            (λ i c. counted c (activity_at activities.now i) turns) }
        ensures outside { self.new.outside.items ≡ self.old.outside.items }
    {
        count_activities(
            &mut self.cells,
            self.column * self.tasks,
            self.tasks,
            activities,
            turns,
        );
    }

    // Adds the first of this many turns without notes, as many as one column has room for. Returns
    // how many it added.
    fn add_some(&mut self, turns: u32, activities: &[Activity]) -> u32
        requires { 0 < turns }
        ensures some { 0 < result }
        ensures within { result ≤ turns }
        ensures tasks { self.new.tasks ≡ self.old.tasks }
        ensures added { (turn : ℕ) (front : List TurnSight) → length front + result ≤ 1000000000 →
            Columned self.old (length front) front → Columned self.new (length front + result)
            (front ++ idle_turns turn result activities.now) }
    {
        self.make_room();
        let some = turns.min(self.width - self.inside);
        self.count_cells(some, activities);
        self.advance(some);
        some
    }

    /// Adds this many turns without notes, in each of which the tasks do the same.
    pub fn add_idle(&mut self, turns: u32, activities: &[Activity])
        ensures tasks { self.new.tasks ≡ self.old.tasks }
        ensures added { (turn : ℕ) (front : List TurnSight) → length front + turns ≤ 1000000000 →
            Columned self.old (length front) front → Columned self.new (length front + turns)
            (front ++ idle_turns turn turns activities.now) }
    {
        let mut left = turns;
        'columns: while left > 0 {
            let added = self.add_some(left, activities);
            left -= added;
        }
    }

    /// How many columns are in use.
    pub fn in_use(&self) -> usize
        ensures few { result ≤ 1200 }
        ensures used { (turns : List TurnSight) → Columned self.now (length turns) turns →
            result ≡ columns (length turns) }
    {
        if self.inside == 0 {
            self.column
        } else {
            (self.column + 1).min(MOST_COLUMNS)
        }
    }

    /// The cells of the columns in use, column after column.
    pub fn all_cells(&self) -> &[Cell]
        ensures { (turns : List TurnSight) → Columned self.now (length turns) turns →
            result.now ≡ cells self.now.tasks turns }
    {
        &self.cells[..self.in_use() * self.tasks]
    }

    /// In how many turns of each column in use something came from outside.
    pub fn all_outside(&self) -> &[u32]
        ensures few { length result.now ≤ 1200 }
        ensures used { (turns : List TurnSight) → Columned self.now (length turns) turns →
            result.now ≡ outside turns }
    {
        &self.outside[..self.in_use()]
    }
}
