//! Contents in which lines are repeated. Those between a line `< N` and a line `>` are there N
//! times; `@` is the number of the time, from 0.

use crate::first_line;
use std::alloc::AllocError;

/// Appends a piece of a line for each time, with the number between each two pieces.
fn push_numbered(bytes: &mut Vec<u8>, lines: &str, number: u32) -> Result<(), AllocError> {
    let alloc = *bytes.allocator();
    let digits = format!(in alloc; "{number}")?;
    bytes.push(b'\n')?;
    for (k, piece) in lines.split('@').enumerate() {
        if k > 0 {
            bytes.extend_from_slice(digits.as_bytes())?;
        }
        bytes.extend_from_slice(piece.as_bytes())?;
    }
    Ok(())
}

/// Appends lines as often as the first line says, and what follows them.
fn push_block(bytes: &mut Vec<u8>, block: &str) -> Result<(), AllocError> {
    let (count, rest) = first_line(block);
    let (lines, after) = rest.split_once("\n>").unwrap_or((rest, ""));
    for number in 0..count.parse::<u32>().unwrap_or(0) {
        push_numbered(bytes, lines, number)?;
    }
    bytes.extend_from_slice(after.as_bytes())
}

/// Appends the contents that the text describes.
pub fn push_repeated(bytes: &mut Vec<u8>, text: &str) -> Result<(), AllocError> {
    for (k, block) in text.split("\n< ").enumerate() {
        if k == 0 {
            bytes.extend_from_slice(block.as_bytes())?;
        } else {
            push_block(bytes, block)?;
        }
    }
    Ok(())
}
