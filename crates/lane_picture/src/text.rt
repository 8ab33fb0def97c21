//! Pieces of text. Each is appended to the text before it.
ghost use Rattle.std.specs.Prelude.{◌≡◌, ◌++◌, decimal};
ghost use Rattle.std.specs.Result.{OnOk};
ghost use Rattle.lane_picture.specs.Drawing.{box_or_none, box_text, escape, escaped};

use itoa::Buffer;
use std::alloc::AllocError;

pub fn push_text(text: &str, out: &mut Vec<u8>) -> Result<(), AllocError>
    ensures { OnOk result (out.new.items ≡ out.old.items ++ text.now) }
{
    out.extend_from_slice(text.as_bytes())
}

pub fn push_decimal(number: u64, out: &mut Vec<u8>) -> Result<(), AllocError>
    ensures { OnOk result (out.new.items ≡ out.old.items ++ decimal number) }
{
    let mut digits = Buffer::new();
    out.extend_from_slice(digits.format(number).as_bytes())
}

#[tactic(auto, unfolding(crate::specs::Drawing::escape))]
fn push_escape(byte: u8, out: &mut Vec<u8>) -> Result<(), AllocError>
    ensures { OnOk result (out.new.items ≡ out.old.items ++ escape byte) }
{
    match byte {
        b'&' => push_text("&amp;", out),
        b'<' => push_text("&lt;", out),
        b'>' => push_text("&gt;", out),
        0..=31 => push_text("?", out),
        _ => out.extend_from_slice(&[byte]),
    }
}

/// Pushes a text as XML writes it.
pub fn push_escaped(text: &str, out: &mut Vec<u8>) -> Result<(), AllocError>
    ensures { OnOk result (out.new.items ≡ out.old.items ++ escaped text.now) }
{
    for byte in text.as_bytes() {
        push_escape(*byte, out)?;
    }
    Ok(())
}

/// Pushes a box, from its top left corner to the right, down and back.
#[tactic(auto, unfolding(crate::specs::Drawing::box_text))]
pub fn push_box(
    x: u64,
    y: u64,
    width: u64,
    height: u64,
    out: &mut Vec<u8>,
) -> Result<(), AllocError>
    ensures { OnOk result (out.new.items ≡ out.old.items ++ box_text x y width height) }
{
    push_text("M", out)?;
    push_decimal(x, out)?;
    push_text(" ", out)?;
    push_decimal(y, out)?;
    push_text("h", out)?;
    push_decimal(width, out)?;
    push_text("v", out)?;
    push_decimal(height, out)?;
    push_text("h-", out)?;
    push_decimal(width, out)?;
    push_text("z", out)
}

/// Pushes a box, or nothing if it has no height.
pub fn push_box_or_none(
    x: u64,
    y: u64,
    width: u64,
    height: u64,
    out: &mut Vec<u8>,
) -> Result<(), AllocError>
    ensures { OnOk result (out.new.items ≡ out.old.items ++ box_or_none x y width height) }
{
    if height == 0 {
        Ok(())
    } else {
        push_box(x, y, width, height, out)
    }
}
