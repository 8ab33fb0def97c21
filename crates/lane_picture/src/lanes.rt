//! The lane of a task: its words, the boxes of its activities, and the marks of its faults and
//! births.
ghost use Rattle.std.specs.Prelude.{◌≡◌, ◌++◌, ◌<◌, ◌*◌, ◌≤◌};
ghost use Rattle.std.specs.Result.{OnOk};
ghost use Rattle.std.specs.List.{flat_map, range_with_len};
ghost use Rattle.lane_picture.specs.Sizes.{IsBounded, columns, drawn_of, tasks};
ghost use Rattle.lane_picture.specs.Drawing.{activity_box, activity_path, birth_box, fault_box, lane_text, marks_text, running, share_text, words_text};

use crate::names::{push_calls_at, push_name};
use crate::parts::LanePicture;
use crate::sizes::{
    activity_height, cell_at, column_left, column_width, columns, lane_bottom, lane_height,
    lane_top, lane_words, part, tasks,
};
use crate::text::{push_box, push_box_or_none, push_decimal, push_text};
use std::alloc::AllocError;

/// The number of turns in which a task runs.
fn running(picture: &LanePicture<'_>, i: u32) -> u64
    requires { IsBounded picture.now }
    ensures is { result ≡ running (drawn_of picture.now) i }
    ensures few { result ≤ 1200 * 4294967295 }
{
    let mut turns = 0;
    for k in 0..columns(picture) {
        turns += u64::from(cell_at(picture, k, i).turns[0]);
    }
    turns
}

/// Pushes the share of these turns, in percent of all turns.
fn push_share(runs: u64, turns: u32, out: &mut Vec<u8>) -> Result<(), AllocError>
    requires { runs ≤ 1200 * 4294967295 }
    ensures { OnOk result (out.new.items ≡ out.old.items ++ share_text runs turns) }
{
    if runs == 0 {
        push_text("-", out)
    } else {
        push_decimal(part(100, runs, u64::from(turns)), out)?;
        push_text(" %", out)
    }
}

/// Pushes the box of an activity of a task in a column. It is on top of the boxes of the activities
/// before it.
fn push_activity_box(
    picture: &LanePicture<'_>,
    i: u32,
    activity: usize,
    k: u16,
    out: &mut Vec<u8>,
) -> Result<(), AllocError>
    requires bounded { IsBounded picture.now }
    requires activity { activity < 7 }
    ensures { OnOk result (out.new.items ≡ out.old.items
        ++ activity_box (drawn_of picture.now) i activity k) }
{
    let cell = cell_at(picture, k, i);
    let low = activity_height(picture, &cell, activity);
    let high = activity_height(picture, &cell, activity + 1);
    let left = column_left(picture, u32::from(k));
    // the box of an activity ends within the lane, and not below its beginning
    let top = lane_bottom(picture, i).saturating_sub(high);
    push_box_or_none(
        left,
        top,
        column_width(picture, k),
        high.saturating_sub(low),
        out,
    )
}

fn push_activity_boxes(
    picture: &LanePicture<'_>,
    i: u32,
    activity: usize,
    out: &mut Vec<u8>,
) -> Result<(), AllocError>
    requires bounded { IsBounded picture.now }
    requires activity { activity < 7 }
    ensures { OnOk result (out.new.items ≡ out.old.items
        ++ flat_map (activity_box (drawn_of picture.now) i activity)
        (range_with_len 0 (columns (drawn_of picture.now)))) }
{
    for k in 0..columns(picture) {
        push_activity_box(picture, i, activity, k, out)?;
    }
    Ok(())
}

#[tactic(auto, unfolding(crate::specs::Drawing::activity_path))]
fn push_activity_path(
    picture: &LanePicture<'_>,
    i: u32,
    activity: usize,
    out: &mut Vec<u8>,
) -> Result<(), AllocError>
    requires bounded { IsBounded picture.now }
    requires activity { activity < 7 }
    ensures { OnOk result (out.new.items ≡ out.old.items
        ++ activity_path (drawn_of picture.now) i activity) }
{
    push_text("<path class=\"a", out)?;
    push_decimal(activity as u64, out)?;
    push_text("\" d=\"", out)?;
    push_activity_boxes(picture, i, activity, out)?;
    push_text("\"/>\n", out)
}

fn push_activity_paths(
    picture: &LanePicture<'_>,
    i: u32,
    out: &mut Vec<u8>,
) -> Result<(), AllocError>
    requires { IsBounded picture.now }
    ensures { OnOk result (out.new.items ≡ out.old.items
        ++ flat_map (activity_path (drawn_of picture.now) i) (range_with_len 0 7)) }
{
    for activity in 0..7 {
        push_activity_path(picture, i, activity, out)?;
    }
    Ok(())
}

/// Pushes the mark of a column in which a task faulted, over its lane.
fn push_fault_box(
    picture: &LanePicture<'_>,
    i: u32,
    k: u16,
    out: &mut Vec<u8>,
) -> Result<(), AllocError>
    requires { IsBounded picture.now }
    ensures { OnOk result (out.new.items ≡ out.old.items ++ fault_box (drawn_of picture.now) i k) }
{
    if cell_at(picture, k, i).faulted {
        let left = column_left(picture, u32::from(k));
        push_box(
            left,
            lane_top(picture, i) - 4,
            2,
            lane_height(picture) + 4,
            out,
        )
    } else {
        Ok(())
    }
}

fn push_fault_boxes(picture: &LanePicture<'_>, i: u32, out: &mut Vec<u8>) -> Result<(), AllocError>
    requires { IsBounded picture.now }
    ensures { OnOk result (out.new.items ≡ out.old.items
        ++ flat_map (fault_box (drawn_of picture.now) i)
        (range_with_len 0 (columns (drawn_of picture.now)))) }
{
    for k in 0..columns(picture) {
        push_fault_box(picture, i, k, out)?;
    }
    Ok(())
}

/// Pushes the mark of a column in which a task was born, below its lane.
fn push_birth_box(
    picture: &LanePicture<'_>,
    i: u32,
    k: u16,
    out: &mut Vec<u8>,
) -> Result<(), AllocError>
    requires { IsBounded picture.now }
    ensures { OnOk result (out.new.items ≡ out.old.items ++ birth_box (drawn_of picture.now) i k) }
{
    if cell_at(picture, k, i).born {
        let left = column_left(picture, u32::from(k));
        push_box(left, lane_bottom(picture, i), 2, 4, out)
    } else {
        Ok(())
    }
}

fn push_birth_boxes(picture: &LanePicture<'_>, i: u32, out: &mut Vec<u8>) -> Result<(), AllocError>
    requires { IsBounded picture.now }
    ensures { OnOk result (out.new.items ≡ out.old.items
        ++ flat_map (birth_box (drawn_of picture.now) i)
        (range_with_len 0 (columns (drawn_of picture.now)))) }
{
    for k in 0..columns(picture) {
        push_birth_box(picture, i, k, out)?;
    }
    Ok(())
}

#[tactic(auto, unfolding(crate::specs::Drawing::marks_text))]
fn push_marks(picture: &LanePicture<'_>, i: u32, out: &mut Vec<u8>) -> Result<(), AllocError>
    requires { IsBounded picture.now }
    ensures { OnOk result (out.new.items ≡ out.old.items ++ marks_text (drawn_of picture.now) i) }
{
    push_text("<path class=\"f\" d=\"", out)?;
    push_fault_boxes(picture, i, out)?;
    push_text("\"/>\n<path class=\"n\" d=\"", out)?;
    push_birth_boxes(picture, i, out)?;
    push_text("\"/>\n", out)
}

#[tactic(auto, unfolding(crate::specs::Drawing::words_text))]
fn push_words(picture: &LanePicture<'_>, i: u32, out: &mut Vec<u8>) -> Result<(), AllocError>
    requires { IsBounded picture.now }
    ensures { OnOk result (out.new.items ≡ out.old.items ++ words_text (drawn_of picture.now) i) }
{
    let line = lane_words(picture, i);
    push_text("<text x=\"168\" y=\"", out)?;
    push_decimal(line, out)?;
    push_text("\" class=\"t q\">", out)?;
    push_name(picture, i, out)?;
    push_text(" <tspan class=\"d s\">", out)?;
    push_decimal(u64::from(i), out)?;
    push_text("</tspan></text>\n<text x=\"1384\" y=\"", out)?;
    push_decimal(line, out)?;
    push_text("\" class=\"d s\">", out)?;
    push_share(running(picture, i), picture.turns, out)?;
    push_calls_at(picture, i, out)?;
    push_text("</text>\n", out)
}

fn push_lane(picture: &LanePicture<'_>, i: u32, out: &mut Vec<u8>) -> Result<(), AllocError>
    requires { IsBounded picture.now }
    ensures { OnOk result (out.new.items ≡ out.old.items ++ lane_text (drawn_of picture.now) i) }
{
    push_words(picture, i, out)?;
    push_activity_paths(picture, i, out)?;
    push_marks(picture, i, out)
}

pub fn push_lanes(picture: &LanePicture<'_>, out: &mut Vec<u8>) -> Result<(), AllocError>
    requires { IsBounded picture.now }
    ensures { OnOk result (out.new.items ≡ out.old.items
        ++ flat_map (lane_text (drawn_of picture.now))
        (range_with_len 0 (tasks (drawn_of picture.now)))) }
{
    for i in 0..tasks(picture) {
        push_lane(picture, i, out)?;
    }
    Ok(())
}
