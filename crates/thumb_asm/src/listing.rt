//! The address of each line of a text.

ghost use Rattle.std.specs.Prelude.{◌≡◌, ◌<◌, ◌≤◌, ◌+◌, ◌^◌, ◌++◌, ◌∷◌, [], length, IfOk, OnOk, IfSome, MatchOption};
ghost use Rattle.text_lines.specs.Text.{lines_of};
ghost use Rattle.thumb_asm.specs.Causes.{line_size};
ghost use Rattle.thumb_asm.specs.Listed.{EachLabelIsListed, EachLineIsPlaced, HaveRoom, insn_lines, is_instruction, labels_in, labels_of, lines_left, named_label, placed, placed_of};
ghost use Rattle.thumb_asm.specs.Parts.{parts};
ghost use Rattle.thumb_asm.specs.Syntax.{is_insn};
ghost use Rattle.thumb_asm.specs.Views.{shape_of};

use super::index;
use super::parts::line_of;
use super::shape::{self, Shape};
use super::words::is_name;
use std::alloc::{AllocError, Global};
use text_lines::Lines;

/// A line of a text that is an instruction: its number, counted from 1, and the address of its
/// bytes.
#[derive(Clone, Copy, PartialEq)]
pub struct InsnLine {
    pub number: usize,
    pub at: u32,
}

/// A label with the address of its line.
#[derive(Drop)]
pub struct Label {
    pub name: String,
    pub at: u32,
}

/// A line with its number and its address.
#[derive(Clone, Copy)]
pub(crate) struct Placed<'a> {
    pub(crate) number: usize,
    pub(crate) at: u32,
    pub(crate) text: &'a [u8],
}

/// An iterator over the lines of a text with their numbers and addresses: the rest of the lines,
/// and how many lines and bytes come before them.
#[derive(Clone, Copy)]
pub(crate) struct PlacedLines<'a> {
    pub(crate) lines: Lines<'a>,
    pub(crate) base: u32,
    pub(crate) used: u32,
    pub(crate) number: usize,
}

/// How many bytes a line takes after those that are used, if it ends within 1048576 bytes.
#[tactic(auto, unfolding(crate::specs::Causes::line_size))]
fn room_for(line: &[u8], base: u32, used: u32) -> Option<u32>
    requires base { base + 1048576 < 2 ^ 32 }
    requires used { used ≤ 1048576 }
    ensures value { MatchOption result (1048576 < used + line_size (base + used) line.now)
        (λ n. n ≡ line_size (base + used) line.now) }
    ensures within { IfSome result (λ n. used + n ≤ 1048576) }
{
    match shape::statement(line_of(line).statement) {
        Ok(found) => shape::room_for(&found, base, used),
        Err(_) => Some(0),
    }
}

impl<'a> PlacedLines<'a> {
    /// All lines of a text whose first line is at the address `base`.
    fn of(text: &'a [u8], base: u32) -> PlacedLines<'a>
        requires { base + 1048576 < 2 ^ 32 }
        ensures lines { lines_left result ≡ placed base (lines_of text.now) }
        ensures room { HaveRoom result }
    {
        PlacedLines {
            lines: Lines::of(text),
            base,
            used: 0,
            number: 0,
        }
    }

    /// The next line, unless it would end after 1048576 bytes.
    #[tactic(auto, using(crate::proofs::Placing::left_none, crate::proofs::Placing::left_stops, crate::proofs::Placing::left_next))]
    fn next(&mut self) -> Option<Placed<'a>>
        requires room { HaveRoom self.old }
        ensures line { MatchOption result (lines_left self.old ≡ [])
            (λ p. lines_left self.old ≡ placed_of p ∷ lines_left self.new) }
        ensures room { HaveRoom self.new }
        ensures shorter { IfSome result
            (λ p. length self.new.lines.rest.now < length self.old.lines.rest.now) }
    {
        let text = self.lines.next()?;
        let size = room_for(text, self.base, self.used)?;
        let at = self.base + self.used;
        self.used += size;
        self.number += 1;
        Some(Placed {
            number: self.number,
            at,
            text,
        })
    }
}

/// Whether a statement is an instruction, not data.
fn is_insn(shape: Shape<'_>) -> bool
    ensures { result ≡ is_insn (shape_of shape.entry) }
{
    match shape {
        Shape::Data(_, _) | Shape::Text(_) | Shape::Zeros(_) | Shape::Padding(_) => false,
        Shape::Fixed(_)
        | Shape::Filled(_, _)
        | Shape::Within(_, _, _, _)
        | Shape::Aimed(_, _)
        | Shape::Near(_, _)
        | Shape::Misplaced
        | Shape::Listed(_, _)
        | Shape::Block(_, _, _, _) => true,
    }
}

fn is_instruction(line: &[u8]) -> bool
    ensures { result ≡ is_instruction line.now }
{
    match shape::statement(line_of(line).statement) {
        Ok(Some(shape)) => is_insn(shape),
        Ok(None) | Err(_) => false,
    }
}

/// The lines of a text that are instructions, if its first line is at the address `base`. A line of
/// data, of only a label or of nothing is not one. For a text that `assemble` accepts, all of them
/// are listed (`accepted_texts_are_listed_whole`). For any other text they are listed up to the
/// first line that would end after 1048576 bytes.
///
/// # Errors
///
/// Only if memory runs out.
#[tactic(auto, using(crate::proofs::Placing::insn_found, crate::proofs::Placing::insn_passed, crate::proofs::Placing::insn_ends))]
pub fn instruction_lines(alloc: Global, text: &[u8], base: u32) -> Result<Vec<InsnLine>, AllocError>
    requires { base + 1048576 < 2 ^ 32 }
    ensures { IfOk result (λ v. v.items ≡ insn_lines (placed base (lines_of text.now))) }
{
    let mut found: Vec<InsnLine> = Vec::new(alloc);
    let mut lines = PlacedLines::of(text, base);
    'lines: while let Some(line) = lines.next() {
        if is_instruction(line.text) {
            found.push(InsnLine {
                number: line.number,
                at: line.at,
            })?;
        }
    }
    Ok(found)
}

/// The label of a line, if it has one that is a name.
#[tactic(auto, using(crate::proofs::Placing::label_pushed, crate::proofs::Placing::label_left, crate::proofs::Placing::label_none))]
fn push_label(alloc: Global, labels: &mut Vec<Label>, line: &Placed<'_>) -> Result<(), AllocError>
    ensures { OnOk result (labels_in labels.new.items ≡ labels_in labels.old.items
        ++ named_label line.now.at (parts line.now.text.now).label) }
{
    match line_of(line.text).label {
        None => Ok(()),
        Some(name) => {
            if is_name(name) {
                labels.push(Label {
                    name: index::text(alloc, name)?,
                    at: line.at,
                })?;
            }
            Ok(())
        }
    }
}

/// The labels of a text in the order of its lines, if its first line is at the address `base`. Text
/// before a colon that is not a name is not a label. The lines are those that `instruction_lines`
/// looks at.
///
/// # Errors
///
/// Only if memory runs out.
#[tactic(auto, using(crate::proofs::Placing::label_found, crate::proofs::Placing::label_ends))]
pub fn label_lines(alloc: Global, text: &[u8], base: u32) -> Result<Vec<Label>, AllocError>
    requires { base + 1048576 < 2 ^ 32 }
    ensures { IfOk result (λ v. labels_in v.items ≡ labels_of (placed base (lines_of text.now))) }
{
    let mut labels: Vec<Label> = Vec::new(alloc);
    let mut lines = PlacedLines::of(text, base);
    'lines: while let Some(line) = lines.next() {
        push_label(alloc, &mut labels, &line)?;
    }
    Ok(labels)
}

/// In a text that `assemble` accepts each line has an address, and `label_lines` gives the same
/// labels as `assemble`.
pub fn accepted_texts_are_listed_whole()
    ensures lines { EachLineIsPlaced }
    ensures labels { EachLabelIsListed }
{}
