//! What came from outside: a box for each column, the highest for the column with the most turns.
ghost use Rattle.std.specs.Prelude.{◌≡◌, ◌++◌, slice_index_or};
ghost use Rattle.std.specs.Result.{OnOk};
ghost use Rattle.lane_picture.specs.Sizes.{IsBounded, drawn_of};
ghost use Rattle.lane_picture.specs.Drawing.{most_outside, outside_box, outside_boxes, outside_text};

use crate::parts::LanePicture;
use crate::sizes::{column_left, column_width, columns, part};
use crate::text::{push_box_or_none, push_decimal, push_text};
use std::alloc::AllocError;

fn most_outside(picture: &LanePicture<'_>) -> u32
    ensures { result ≡ most_outside (drawn_of picture.now) }
{
    let mut most = 0u32;
    for turns in picture.outside {
        most = most.max(*turns);
    }
    most
}

fn outside_at(picture: &LanePicture<'_>, k: u16) -> u32
    ensures { result ≡ slice_index_or picture.now.outside.now k 0 }
{
    match picture.outside.get(k as usize) {
        Some(turns) => *turns,
        None => 0,
    }
}

fn push_outside_box(
    picture: &LanePicture<'_>,
    most: u32,
    k: u16,
    out: &mut Vec<u8>,
) -> Result<(), AllocError>
    requires bounded { IsBounded picture.now }
    requires most { most ≡ most_outside (drawn_of picture.now) }
    ensures { OnOk result (out.new.items ≡ out.old.items ++ outside_box (drawn_of picture.now) k) }
{
    let high = part(24, u64::from(outside_at(picture, k)), u64::from(most));
    let left = column_left(picture, u32::from(k));
    // no box is higher than 24
    let top = 104u64.saturating_sub(high);
    push_box_or_none(left, top, column_width(picture, k), high, out)
}

fn push_outside_boxes(
    picture: &LanePicture<'_>,
    most: u32,
    out: &mut Vec<u8>,
) -> Result<(), AllocError>
    requires bounded { IsBounded picture.now }
    requires most { most ≡ most_outside (drawn_of picture.now) }
    ensures { OnOk result (out.new.items ≡ out.old.items ++ outside_boxes (drawn_of picture.now)) }
{
    for k in 0..columns(picture) {
        push_outside_box(picture, most, k, out)?;
    }
    Ok(())
}

#[tactic(auto, unfolding(crate::specs::Drawing::outside_text))]
pub fn push_outside(picture: &LanePicture<'_>, out: &mut Vec<u8>) -> Result<(), AllocError>
    requires { IsBounded picture.now }
    ensures { OnOk result (out.new.items ≡ out.old.items ++ outside_text (drawn_of picture.now)) }
{
    let most = most_outside(picture);
    push_text(
        "<text x=\"168\" y=\"98\" class=\"t q\">outside</text>\n<path class=\"o\" d=\"",
        out,
    )?;
    push_outside_boxes(picture, most, out)?;
    push_text(
        "\"/>\n<text x=\"1384\" y=\"98\" class=\"d s\">at most ",
        out,
    )?;
    push_decimal(u64::from(most), out)?;
    push_text(" turns a column</text>\n", out)
}
