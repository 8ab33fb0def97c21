//! The rows below the lanes: what happened to tasks.
ghost use Rattle.std.specs.Prelude.{◌≡◌, ◌++◌, ◌+◌, ◌-◌, ◌<◌, codes, decimal, length};
ghost use Rattle.std.specs.Result.{OnOk};
ghost use Rattle.std.specs.List.{flat_map, range_with_len};
ghost use Rattle.lane_picture.specs.Sizes.{IsBounded, drawn_of, row_line};
ghost use Rattle.lane_picture.specs.Drawing.{event_text, events_text, rest_text, more_text, row_text};

use crate::parts::LanePicture;
use crate::sizes::row_line;
use crate::text::{push_decimal, push_escaped, push_text};
use std::alloc::AllocError;

// Pushes the text before the words of a row.
fn begin_row(
    picture: &LanePicture<'_>,
    j: u32,
    class: &str,
    out: &mut Vec<u8>,
) -> Result<(), AllocError>
    requires { IsBounded picture.now }
    ensures { OnOk result (out.new.items ≡ out.old.items
        ++ (codes "<text x=\"176\" y=\"" ++ decimal (row_line (drawn_of picture.now) j)
        ++ codes "\" class=\"" ++ class.now ++ codes "\">")) }
{
    push_text("<text x=\"176\" y=\"", out)?;
    push_decimal(row_line(picture, j), out)?;
    push_text("\" class=\"", out)?;
    push_text(class, out)?;
    push_text("\">", out)
}

// Pushes the text after the words of a row.
fn end_row(out: &mut Vec<u8>) -> Result<(), AllocError>
    ensures { OnOk result (out.new.items ≡ out.old.items ++ codes "</text>\n") }
{
    push_text("</text>\n", out)
}

#[tactic(auto, unfolding(crate::specs::Drawing::row_text))]
fn push_row(
    picture: &LanePicture<'_>,
    j: u32,
    class: &str,
    text: &str,
    out: &mut Vec<u8>,
) -> Result<(), AllocError>
    requires { IsBounded picture.now }
    ensures { OnOk result (out.new.items ≡ out.old.items
        ++ row_text (drawn_of picture.now) j class.now text.now) }
{
    begin_row(picture, j, class, out)?;
    push_text(text, out)?;
    end_row(out)
}

#[tactic(auto, unfolding(crate::specs::Drawing::row_text))]
fn push_event(picture: &LanePicture<'_>, j: u32, out: &mut Vec<u8>) -> Result<(), AllocError>
    requires bounded { IsBounded picture.now }
    requires within { j < length picture.now.events.now }
    ensures { OnOk result (out.new.items ≡ out.old.items ++ event_text (drawn_of picture.now) j) }
{
    begin_row(picture, j + 1, "d", out)?;
    push_escaped(picture.events[j as usize].as_str(), out)?;
    end_row(out)
}

fn push_each_event(picture: &LanePicture<'_>, out: &mut Vec<u8>) -> Result<(), AllocError>
    requires { IsBounded picture.now }
    ensures { OnOk result (out.new.items ≡ out.old.items
        ++ flat_map (event_text (drawn_of picture.now))
        (range_with_len 0 (length (drawn_of picture.now).events))) }
{
    for j in 0..picture.events.len() {
        push_event(picture, j as u32, out)?;
    }
    Ok(())
}

#[tactic(auto, unfolding(crate::specs::Drawing::row_text))]
fn push_more(picture: &LanePicture<'_>, out: &mut Vec<u8>) -> Result<(), AllocError>
    requires bounded { IsBounded picture.now }
    requires more { length picture.now.events.now < picture.now.all_events }
    ensures { OnOk result (out.new.items ≡ out.old.items ++ more_text (drawn_of picture.now)) }
{
    let told = picture.events.len();
    begin_row(picture, told as u32 + 1, "d", out)?;
    push_text("and ", out)?;
    push_decimal(picture.all_events - told as u64, out)?;
    push_text(" more", out)?;
    end_row(out)
}

/// Pushes a row if there are no events, or more than the picture lists.
fn push_rest(picture: &LanePicture<'_>, out: &mut Vec<u8>) -> Result<(), AllocError>
    requires { IsBounded picture.now }
    ensures { OnOk result (out.new.items ≡ out.old.items ++ rest_text (drawn_of picture.now)) }
{
    if picture.all_events == 0 {
        push_row(picture, 1, "d", "none", out)
    } else if (picture.events.len() as u64) < picture.all_events {
        push_more(picture, out)
    } else {
        Ok(())
    }
}

pub fn push_events(picture: &LanePicture<'_>, out: &mut Vec<u8>) -> Result<(), AllocError>
    requires { IsBounded picture.now }
    ensures { OnOk result (out.new.items ≡ out.old.items ++ events_text (drawn_of picture.now)) }
{
    push_row(picture, 0, "t", "faults and births", out)?;
    push_each_event(picture, out)?;
    push_rest(picture, out)
}
