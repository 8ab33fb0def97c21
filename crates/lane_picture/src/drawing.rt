//! The whole picture.
ghost use Rattle.std.specs.Prelude.{◌≡◌, ◌≤◌, ◌<◌, IfOk, length};
ghost use Rattle.lane_picture.specs.Drawing.{drawing_text};
ghost use Rattle.lane_picture.specs.Sizes.{drawn_of};

use crate::arrows::push_arrows;
use crate::events::push_events;
use crate::heading::{push_axis, push_head, push_look, push_opening};
use crate::lanes::push_lanes;
use crate::outside::push_outside;
use crate::parts::LanePicture;
use crate::text::push_text;
use std::alloc::{AllocError, Global};

/// The picture as the bytes of an SVG file (docs/FORMATS.md, Picture).
///
/// # Errors
///
/// Only if memory runs out.
#[tactic(auto, unfolding(crate::specs::Drawing::drawing_text))]
pub fn draw(alloc: Global, picture: &LanePicture<'_>) -> Result<Vec<u8>, AllocError>
    requires columns { length picture.now.outside.now ≤ 1200 }
    requires tasks { length picture.now.names.now ≤ 65536 }
    requires events { length picture.now.events.now ≤ 10 }
    requires turns { 0 < picture.now.column_turns }
    ensures { IfOk result (λ v. v.items ≡ drawing_text (drawn_of picture.now)) }
{
    let mut out = Vec::new(alloc);
    push_opening(picture, &mut out)?;
    push_look(&mut out)?;
    push_head(picture, &mut out)?;
    push_axis(picture, &mut out)?;
    push_outside(picture, &mut out)?;
    push_lanes(picture, &mut out)?;
    push_arrows(picture, &mut out)?;
    push_events(picture, &mut out)?;
    push_text("</svg>\n", &mut out)?;
    Ok(out)
}
