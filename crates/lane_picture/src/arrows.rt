//! The arrows of calls.
ghost use Rattle.std.specs.Prelude.{◌≡◌, ◌++◌, nat_lt, if◌then◌else◌};
ghost use Rattle.std.specs.Result.{OnOk};
ghost use Rattle.lane_picture.specs.Sizes.{IsBounded, drawn_of, lane_bottom, lane_top};
ghost use Rattle.lane_picture.specs.Drawing.{arrow_text, arrows_text, way_class};

use crate::heading::MOST_ARROWS;
use crate::parts::{Arrow, ArrowKind, LanePicture};
use crate::sizes::{lane_bottom, lane_top, turn_left};
use crate::text::{push_decimal, push_text};
use std::alloc::AllocError;

fn way_class(way: ArrowKind) -> &'static str
    ensures { result.now ≡ way_class way }
{
    match way {
        ArrowKind::Call => "c",
        ArrowKind::Answer => "r",
        ArrowKind::Break => "x",
    }
}

/// Where an arrow begins: on the side of its lane that faces the other lane.
fn start_line(picture: &LanePicture<'_>, arrow: &Arrow) -> u64
    requires { IsBounded picture.now }
    ensures { result ≡ (if nat_lt arrow.now.from arrow.now.to then lane_bottom
        (drawn_of picture.now) arrow.now.from else lane_top (drawn_of picture.now) arrow.now.from) }
{
    let lane = u32::from(arrow.from);
    if arrow.from < arrow.to {
        lane_bottom(picture, lane)
    } else {
        lane_top(picture, lane)
    }
}

/// Where an arrow ends: on the side of its lane that faces the other lane.
fn end_line(picture: &LanePicture<'_>, arrow: &Arrow) -> u64
    requires { IsBounded picture.now }
    ensures { result ≡ (if nat_lt arrow.now.from arrow.now.to then lane_top (drawn_of picture.now)
        arrow.now.to else lane_bottom (drawn_of picture.now) arrow.now.to) }
{
    let lane = u32::from(arrow.to);
    if arrow.from < arrow.to {
        lane_top(picture, lane)
    } else {
        lane_bottom(picture, lane)
    }
}

#[tactic(auto, unfolding(crate::specs::Drawing::arrow_text))]
fn push_arrow(picture: &LanePicture<'_>, arrow: &Arrow, out: &mut Vec<u8>) -> Result<(), AllocError>
    requires { IsBounded picture.now }
    ensures { OnOk result (out.new.items ≡ out.old.items
        ++ arrow_text (drawn_of picture.now) arrow.now) }
{
    push_text("<path class=\"", out)?;
    push_text(way_class(arrow.way), out)?;
    push_text("\" d=\"M", out)?;
    push_decimal(turn_left(picture, arrow.at), out)?;
    push_text(" ", out)?;
    push_decimal(start_line(picture, arrow), out)?;
    push_text("L", out)?;
    push_decimal(turn_left(picture, arrow.until), out)?;
    push_text(" ", out)?;
    push_decimal(end_line(picture, arrow), out)?;
    push_text("\"/>\n", out)
}

/// Pushes the arrows, unless there are too many.
pub fn push_arrows(picture: &LanePicture<'_>, out: &mut Vec<u8>) -> Result<(), AllocError>
    requires { IsBounded picture.now }
    ensures { OnOk result (out.new.items ≡ out.old.items ++ arrows_text (drawn_of picture.now)) }
{
    if picture.all_arrows > MOST_ARROWS {
        return Ok(());
    }
    for arrow in picture.arrows {
        push_arrow(picture, arrow, out)?;
    }
    Ok(())
}
