//! What the stretches of a task are, and what the columns of a picture are. Nothing runs here.
ghost use Rattle.std.specs.Prelude.{◌≡◌, ◌≤◌, ◌<◌, ◌⊎◌, ◌*◌, ℕ, List, length, sum};
ghost use Rattle.std.specs.List.{flat_map, range_with_len};
ghost use Rattle.run_lanes.specs.Columns.{cell_of, column, column_turns, columns, most_columns};
ghost use Rattle.run_lanes.specs.Stretches.{Alternate, activities_of, laid_out, stretches, told, turns_in};
ghost use Rattle.run_lanes.specs.Timeline.{nothing_yet};
ghost use Rattle.run_lanes.specs.Activities.{TurnSight};

/// The stretches of a task tile the turns. One after another they are what the task does, turn by
/// turn. So they have as many turns, and two neighbours have different activities. A timeline has
/// exactly these stretches of it. (docs/FORMATS.md, Timeline.)
pub fn stretches_tile_the_turns()
    ensures tile { (i : ℕ) (turns : List TurnSight) →
        laid_out (stretches (activities_of i turns)) ≡ activities_of i turns }
    ensures turns { (i : ℕ) (turns : List TurnSight) →
        turns_in (stretches (activities_of i turns)) ≡ length turns }
    ensures differ { (i : ℕ) (turns : List TurnSight) →
        Alternate (stretches (activities_of i turns)) }
    ensures told { (i turn : ℕ) (turns : List TurnSight) →
        told turn (nothing_yet turn) (activities_of i turns) ≡ stretches (activities_of i turns) }
{}

/// The columns of a picture tile the turns. One after another they are the turns, and there are at
/// most 1,200 of them. The number of turns in a column is the least power of two with which these
/// suffice. In each column the counts of a task's activities add up to the turns of the column.
/// (docs/FORMATS.md, Picture.)
pub fn columns_tile_the_turns()
    ensures tile { (turns : List TurnSight) →
        flat_map (column turns) (range_with_len 0 (columns (length turns))) ≡ turns }
    ensures most { (n : ℕ) → n ≤ 1000000000 → columns n ≤ most_columns }
    ensures least { (n : ℕ) → (column_turns n ≡ 1)
        ⊎ ((half : ℕ) × (column_turns n ≡ 2 * half) × (most_columns * half < n)) }
    ensures activities { (i : ℕ) (turns : List TurnSight) →
        sum (cell_of turns i).turns ≡ length turns }
{}
