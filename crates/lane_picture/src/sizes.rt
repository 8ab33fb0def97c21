//! Where the parts of a picture are.
ghost use Rattle.std.specs.Prelude.{◌≡◌, ◌+◌, ◌*◌, ◌^◌, ◌<◌, ◌≤◌, sum, take};
ghost use Rattle.lane_picture.specs.Sizes.{IsBounded, activity_height, cell_at, column_left, column_width, columns, drawn_of, lane_bottom, lane_height, lane_pitch, lane_top, lane_words, lanes_end, part, row_line, tasks, turn_left};

use crate::parts::{Cell, LanePicture};

/// The part of a height or a width (`room`) for `some` out of `all`.
pub fn part(room: u64, some: u64, all: u64) -> u64
    requires { room * some < 2 ^ 64 }
    ensures { result ≡ part room some all }
{
    if all == 0 { 0 } else { room * some / all }
}

pub fn columns(picture: &LanePicture<'_>) -> u16
    requires { IsBounded picture.now }
    ensures is { result ≡ columns (drawn_of picture.now) }
    ensures few { result ≤ 1200 }
{
    picture.outside.len() as u16
}

pub fn column_left(picture: &LanePicture<'_>, k: u32) -> u64
    requires { IsBounded picture.now }
    ensures { result ≡ column_left (drawn_of picture.now) k }
{
    176 + part(1200, u64::from(k), u64::from(columns(picture)))
}

pub fn column_width(picture: &LanePicture<'_>, k: u16) -> u64
    requires { IsBounded picture.now }
    ensures { result ≡ column_width (drawn_of picture.now) k }
{
    let left = column_left(picture, u32::from(k));
    // a column does not end before it begins
    column_left(picture, u32::from(k) + 1).saturating_sub(left)
}

/// The left end of the column of a turn.
pub fn turn_left(picture: &LanePicture<'_>, turn: u32) -> u64
    requires { IsBounded picture.now }
    ensures { result ≡ turn_left (drawn_of picture.now) turn }
{
    column_left(picture, turn / picture.column_turns)
}

pub fn tasks(picture: &LanePicture<'_>) -> u32
    requires { IsBounded picture.now }
    ensures is { result ≡ tasks (drawn_of picture.now) }
    ensures few { result ≤ 65536 }
{
    picture.names.len() as u32
}

pub fn lane_height(picture: &LanePicture<'_>) -> u64
    requires { IsBounded picture.now }
    ensures is { result ≡ lane_height (drawn_of picture.now) }
    ensures low { result ≤ 18 }
{
    if tasks(picture) <= 32 { 18 } else { 9 }
}

fn lane_pitch(picture: &LanePicture<'_>) -> u64
    requires { IsBounded picture.now }
    ensures is { result ≡ lane_pitch (drawn_of picture.now) }
    ensures low { result ≤ 28 }
{
    if tasks(picture) <= 32 { 28 } else { 12 }
}

pub fn lane_top(picture: &LanePicture<'_>, i: u32) -> u64
    requires { IsBounded picture.now }
    ensures is { result ≡ lane_top (drawn_of picture.now) i }
    ensures above { 118 ≤ result }
    ensures below { result < 2 ^ 40 }
{
    118 + u64::from(i) * lane_pitch(picture)
}

pub fn lane_bottom(picture: &LanePicture<'_>, i: u32) -> u64
    requires { IsBounded picture.now }
    ensures { result ≡ lane_bottom (drawn_of picture.now) i }
{
    lane_top(picture, i) + lane_height(picture)
}

/// The base line of the words of a lane.
pub fn lane_words(picture: &LanePicture<'_>, i: u32) -> u64
    requires { IsBounded picture.now }
    ensures { result ≡ lane_words (drawn_of picture.now) i }
{
    let down = if tasks(picture) <= 32 { 13 } else { 8 };
    lane_top(picture, i) + down
}

pub fn lanes_end(picture: &LanePicture<'_>) -> u64
    requires { IsBounded picture.now }
    ensures is { result ≡ lanes_end (drawn_of picture.now) }
    ensures below { result < 2 ^ 40 }
{
    lane_top(picture, tasks(picture))
}

/// The base line of a row below the lanes.
pub fn row_line(picture: &LanePicture<'_>, j: u32) -> u64
    requires { IsBounded picture.now }
    ensures { result ≡ row_line (drawn_of picture.now) j }
{
    lanes_end(picture) + 20 + 16 * u64::from(j)
}

const NO_CELL: Cell = Cell {
    turns: [0; 7],
    faulted: false,
    born: false,
};

/// The cell of a column and a task.
pub fn cell_at(picture: &LanePicture<'_>, k: u16, i: u32) -> Cell
    requires { IsBounded picture.now }
    ensures { result ≡ cell_at (drawn_of picture.now) k i }
{
    match picture
        .cells
        .get(k as usize * tasks(picture) as usize + i as usize)
    {
        Some(cell) => *cell,
        None => NO_CELL,
    }
}

// The number of turns of the first activities of a cell.
fn turns_before(cell: &Cell, activity: usize) -> u64
    requires { activity ≤ 7 }
    ensures is { result ≡ sum (take activity cell.now.turns) }
    ensures below { result < 2 ^ 35 }
{
    let mut total = 0;
    for turns in &cell.turns[..activity] {
        total += u64::from(*turns);
    }
    total
}

/// The height above the bottom of a lane at which the box of an activity begins.
pub fn activity_height(picture: &LanePicture<'_>, cell: &Cell, activity: usize) -> u64
    requires bounded { IsBounded picture.now }
    requires activity { activity ≤ 7 }
    ensures { result ≡ activity_height (drawn_of picture.now) cell.now activity }
{
    part(
        lane_height(picture),
        turns_before(cell, activity),
        turns_before(cell, 7),
    )
}
