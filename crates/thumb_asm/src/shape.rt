//! Statements.

ghost use Rattle.std.specs.Prelude.{◌≡◌, ◌<◌, ◌≤◌, ◌+◌, ◌*◌, ◌/◌, ◌^◌, false, length, OnOk, IfOk, IfErr, IfSome, MatchOption, option_map, nat_abs, pos, ◌-ℤ◌, Result, Ok, Err, None, Some};
ghost use Rattle.thumb_asm.specs.Sizes.{statement_of, shape_size, list_insn, block_insn, natural_part, padding, has_bad_count};
ghost use Rattle.thumb_asm.specs.Operands.{signed};
ghost use Rattle.thumb_asm.specs.Parts.{operand_pieces};
ghost use Rattle.thumb_asm.specs.Kinds.{ranges_in, good_text};
ghost use Rattle.thumb_encode.specs.Codes.{insn_size, scale};
ghost use Rattle.thumb_asm.specs.Meaning.{insn_at};
ghost use Rattle.thumb_asm.specs.Syntax.{Filled as SpecFilled, Within as SpecWithin, Aimed as SpecAimed, Near as SpecNear};
ghost use Rattle.thumb_asm.specs.Causes.{shape_cause, size_by};
ghost use Rattle.thumb_asm.specs.Passes.{env_in, Stops};
ghost use Rattle.thumb_asm.specs.Views.{shape_of, shown, fill, aim, HoldsInsn};
ghost use Rattle.thumb_asm.specs.Outputs.{Gave, Finds};

use super::checks::checked;
use super::codes::{aim, emit_found, fill, with_bounded, with_distance, with_value};
use super::data::{self, push_zeros};
use super::expr::{signed, value};
use super::index::KnownNames;
use super::lists::{is_listed, mask};
use super::parts::{count, split_word};
use super::syntax::{mnemonic, shaped, values};
use super::words::is_nil;
use super::{Cause, Mnemonic, Stop, quotes};
use thumb_insn::{Insn, Reg, Size};

/// The shape of a statement, with its expressions as text.
#[derive(Clone, Copy)]
pub(crate) enum Shape<'a> {
    Fixed(Insn),
    Filled(&'a [u8], Insn),
    Within(u32, u32, &'a [u8], Insn),
    Aimed(&'a [u8], Insn),
    Near(&'a [u8], Insn),
    Misplaced,
    Listed(bool, &'a [u8]),
    Block(Reg, bool, bool, &'a [u8]),
    Data(Size, &'a [u8]),
    Text(&'a [u8]),
    Zeros(&'a [u8]),
    Padding(&'a [u8]),
}

/// The shape of a statement; None if there is no statement.
#[tactic(auto, unfolding(crate::specs::Sizes::statement_of))]
pub(crate) fn statement(text: &[u8]) -> Result<Option<Shape<'_>>, Cause>
    ensures value { shown result ≡ statement_of text.now }
    ensures counted { IfOk result (λ o. IfSome o (λ s. has_bad_count (shape_of s) ≡ false)) }
{
    if is_nil(text) {
        return Ok(None);
    }
    let (word, rest) = split_word(text);
    match mnemonic(word) {
        None => Err(Cause::UnknownMnemonic),
        Some(Mnemonic::Values(size)) => checked(values(size, rest)),
        Some(m) => checked(shaped(m, rest)),
    }
}

/// How many bytes an instruction takes.
fn insn_size(insn: &Insn) -> u32
    ensures { result ≡ insn_size insn.now }
{
    match *insn {
        Insn::Bl { .. } | Insn::Fence { .. } | Insn::Mrs { .. } | Insn::Msr { .. } => 4,
        Insn::ShiftImm { .. }
        | Insn::AddsReg { .. }
        | Insn::SubsReg { .. }
        | Insn::AddsImm3 { .. }
        | Insn::SubsImm3 { .. }
        | Insn::MovsImm { .. }
        | Insn::CmpImm { .. }
        | Insn::AddsImm8 { .. }
        | Insn::SubsImm8 { .. }
        | Insn::Data { .. }
        | Insn::AddHigh { .. }
        | Insn::CmpHigh { .. }
        | Insn::MovHigh { .. }
        | Insn::Bx { .. }
        | Insn::Blx { .. }
        | Insn::LdrLiteral { .. }
        | Insn::StoreReg { .. }
        | Insn::LoadReg { .. }
        | Insn::StoreImm { .. }
        | Insn::LoadImm { .. }
        | Insn::StoreSp { .. }
        | Insn::LoadSp { .. }
        | Insn::Adr { .. }
        | Insn::AddSp { .. }
        | Insn::RaiseSp { .. }
        | Insn::LowerSp { .. }
        | Insn::Change { .. }
        | Insn::Push { .. }
        | Insn::Pop { .. }
        | Insn::Cpsie
        | Insn::Cpsid
        | Insn::Bkpt { .. }
        | Insn::Hint { .. }
        | Insn::Stm { .. }
        | Insn::Ldm { .. }
        | Insn::BranchIf { .. }
        | Insn::Svc { .. }
        | Insn::Branch { .. } => 2,
    }
}

/// How many bytes a value takes.
fn width(size: Size) -> usize
    ensures value { result ≡ scale size }
    ensures bound { result ≤ 4 }
    ensures positive { 0 < result }
{
    match size {
        Size::Word => 4,
        Size::Half => 2,
        Size::Byte => 1,
    }
}

/// How many zero bytes a statement asks for.
fn zeros(piece: &[u8]) -> u32
    ensures { result ≡ natural_part (signed piece.now) }
{
    match signed(piece) {
        None => 0,
        Some(number) => if number < 0 { 0 } else { number as u32 },
    }
}

/// How many zero bytes there are up to a multiple of a power of two.
fn padding(at: u32, power: u32) -> u32
    requires { power ≤ 8 }
    ensures { result ≡ padding at power }
{
    let unit = 1u32 << power;
    (unit - at % unit) % unit
}

/// How many bytes values take, unless they are too many.
fn data_size(size: Size, pieces: &[u8]) -> Option<u32>
    ensures { MatchOption result (1048576 < scale size * length (operand_pieces pieces.now))
        (λ n. n ≡ scale size * length (operand_pieces pieces.now)) }
{
    let count = count(pieces);
    if count > 1_048_576 {
        None
    } else {
        Some((width(size) * count) as u32)
    }
}

/// How many bytes a quoted text means, unless they are too many.
fn text_size(text: &[u8]) -> Option<u32>
    ensures { MatchOption result (1048576 < length (good_text false text.now))
        (λ n. n ≡ length (good_text false text.now)) }
{
    let count = quotes::count(text);
    if count > 1_048_576 {
        None
    } else {
        Some(count as u32)
    }
}

/// How many bytes a statement takes; None if there are more than a text may have.
#[tactic(auto, unfolding(crate::specs::Sizes::shape_size, crate::specs::Sizes::has_bad_count))]
pub(crate) fn size(at: u32, shape: &Shape<'_>) -> Option<u32>
    requires { has_bad_count (shape_of shape.now) ≡ false }
    ensures { MatchOption result (1048576 < shape_size at (shape_of shape.now))
        (λ n. n ≡ shape_size at (shape_of shape.now)) }
{
    match *shape {
        Shape::Fixed(insn) => Some(insn_size(&insn)),
        Shape::Filled(_, insn) | Shape::Within(_, _, _, insn) | Shape::Near(_, insn) => Some(
            insn_size(&fill(insn, 0)),
        ),
        Shape::Aimed(_, insn) => Some(insn_size(&aim(insn, 0))),
        Shape::Misplaced => Some(0),
        Shape::Listed(_, _) | Shape::Block(_, _, _, _) => Some(2),
        Shape::Data(size, pieces) => data_size(size, pieces),
        Shape::Text(text) => text_size(text),
        Shape::Zeros(piece) => Some(zeros(piece)),
        Shape::Padding(piece) => Some(padding(at, zeros(piece))),
    }
}

/// How many bytes a line with this statement, or with none, takes after those that are used, if it
/// ends within 1048576 bytes.
pub(crate) fn room_for(found: &Option<Shape<'_>>, base: u32, used: u32) -> Option<u32>
    requires counted { IfSome found.now (λ s. has_bad_count (shape_of s) ≡ false) }
    requires base { base + 1048576 < 2 ^ 32 }
    requires used { used ≤ 1048576 }
    ensures value { MatchOption result
        (1048576 < used + size_by (base + used) (Ok (option_map shape_of found.now)))
        (λ n. n ≡ size_by (base + used) (Ok (option_map shape_of found.now))) }
    ensures within { IfSome result (λ n. used + n ≤ 1048576) }
{
    let size = match found {
        None => 0,
        Some(shape) => size(base + used, shape)?,
    };
    if size > 1_048_576 - used {
        None
    } else {
        Some(size)
    }
}

/// The instruction with the value of an expression, or why there is none.
#[tactic(auto, unfolding(crate::specs::Meaning::insn_at))]
fn filled(at: u32, piece: &[u8], insn: Insn, names: &KnownNames<'_>) -> Result<Insn, Cause>
    ensures { Finds result (insn_at (env_in names.now.labels.now names.now.symbols.now) at
        (SpecFilled piece.now (fill insn))) }
{
    match value(piece, names) {
        None => Err(Cause::UnknownSymbol),
        Some(number) => with_value(insn, number),
    }
}

/// The same for a value that has bounds.
#[tactic(auto, unfolding(crate::specs::Meaning::insn_at))]
fn within(
    at: u32,
    low: u32,
    top: u32,
    piece: &[u8],
    insn: Insn,
    names: &KnownNames<'_>,
) -> Result<Insn, Cause>
    ensures { Finds result (insn_at (env_in names.now.labels.now names.now.symbols.now) at
        (SpecWithin low top piece.now (fill insn))) }
{
    match value(piece, names) {
        None => Err(Cause::UnknownSymbol),
        Some(number) => with_bounded(insn, low, top, number),
    }
}

/// The distance of a target from the address plus 4.
#[inline(always)]
fn distance(at: u32, target: i64) -> i64
    requires { nat_abs target < 2 ^ 34 }
    ensures { result ≡ target -ℤ pos (at + 4) }
{
    let from = i64::from(at) + 4;
    target - from
}

/// The instruction with the distance of a target, or why there is none.
#[tactic(auto, unfolding(crate::specs::Meaning::insn_at))]
fn aimed(at: u32, piece: &[u8], insn: Insn, names: &KnownNames<'_>) -> Result<Insn, Cause>
    ensures { Finds result (insn_at (env_in names.now.labels.now names.now.symbols.now) at
        (SpecAimed piece.now (aim insn))) }
{
    match value(piece, names) {
        None => Err(Cause::UnknownSymbol),
        Some(target) => with_distance(insn, distance(at, target)),
    }
}

/// The distance of a target from the address plus 4 aligned down to a multiple of 4.
fn aligned_distance(at: u32, target: i64) -> i64
    requires { nat_abs target < 2 ^ 34 }
    ensures { result ≡ target -ℤ pos ((at + 4) / 4 * 4) }
{
    target - (i64::from(at) + 4) / 4 * 4
}

/// The same for a distance from the address plus 4 aligned down.
#[tactic(auto, unfolding(crate::specs::Meaning::insn_at))]
fn near(at: u32, piece: &[u8], insn: Insn, names: &KnownNames<'_>) -> Result<Insn, Cause>
    ensures { Finds result (insn_at (env_in names.now.labels.now names.now.symbols.now) at
        (SpecNear piece.now (fill insn))) }
{
    match value(piece, names) {
        None => Err(Cause::UnknownSymbol),
        Some(target) => with_value(insn, aligned_distance(at, target)),
    }
}

/// The instruction of a list: `push` or `pop`.
fn list_insn(loads: bool, text: &[u8]) -> Insn
    ensures { result ≡ list_insn loads (ranges_in text.now) }
{
    if loads {
        Insn::Pop {
            list: mask(text),
            pc: is_listed(text, 15),
        }
    } else {
        Insn::Push {
            list: mask(text),
            lr: is_listed(text, 14),
        }
    }
}

fn block_insn(n: Reg, loads: bool, list: u8) -> Insn
    ensures { result ≡ block_insn n loads list }
{
    if loads {
        Insn::Ldm { n, list }
    } else {
        Insn::Stm { n, list }
    }
}

/// The instruction of a statement, or why there is none.
#[tactic(auto, unfolding(crate::specs::Meaning::insn_at))]
fn insn_at(at: u32, shape: &Shape<'_>, names: &KnownNames<'_>) -> Result<Insn, Cause>
    requires { HoldsInsn shape.now }
    ensures { Finds result (insn_at (env_in names.now.labels.now names.now.symbols.now) at
        (shape_of shape.now)) }
{
    match *shape {
        Shape::Fixed(insn) => Ok(insn),
        Shape::Filled(e, insn) => filled(at, e, insn, names),
        Shape::Within(low, top, e, insn) => within(at, low, top, e, insn, names),
        Shape::Aimed(e, insn) => aimed(at, e, insn, names),
        Shape::Near(e, insn) => near(at, e, insn, names),
        Shape::Misplaced => Err(Cause::BadRegister),
        Shape::Listed(loads, text) => Ok(list_insn(loads, text)),
        Shape::Block(n, _, loads, text) => Ok(block_insn(n, loads, mask(text))),
        Shape::Data(_, _) | Shape::Text(_) | Shape::Zeros(_) | Shape::Padding(_) => unreachable!(),
    }
}

/// Appends the code of a statement's instruction.
fn emit_code(
    at: u32,
    shape: &Shape<'_>,
    names: &KnownNames<'_>,
    out: &mut Vec<u8>,
) -> Result<(), Stop>
    requires { HoldsInsn shape.now }
    ensures ok { OnOk result (Gave (env_in names.now.labels.now names.now.symbols.now) at
        (shape_of shape.now) out.old.items out.new.items) }
    ensures err { IfErr result (λ e. Stops e
        (shape_cause (env_in names.now.labels.now names.now.symbols.now) at (shape_of shape.now))) }
{
    emit_found(at, insn_at(at, shape, names), out)
}

/// Appends the bytes of a statement.
#[tactic(auto, unfolding(crate::specs::Sizes::has_bad_count, crate::specs::Causes::shape_cause))]
pub(crate) fn emit(
    at: u32,
    shape: &Shape<'_>,
    names: &KnownNames<'_>,
    out: &mut Vec<u8>,
) -> Result<(), Stop>
    requires { has_bad_count (shape_of shape.now) ≡ false }
    ensures ok { OnOk result (Gave (env_in names.now.labels.now names.now.symbols.now) at
        (shape_of shape.now) out.old.items out.new.items) }
    ensures err { IfErr result (λ e. Stops e
        (shape_cause (env_in names.now.labels.now names.now.symbols.now) at (shape_of shape.now))) }
{
    match *shape {
        Shape::Data(size, pieces) => data::emit(at, size, pieces, names, out),
        Shape::Text(text) => quotes::push(text, out),
        Shape::Zeros(piece) => push_zeros(zeros(piece), out),
        Shape::Padding(piece) => push_zeros(padding(at, zeros(piece)), out),
        Shape::Fixed(_)
        | Shape::Filled(_, _)
        | Shape::Within(_, _, _, _)
        | Shape::Aimed(_, _)
        | Shape::Near(_, _)
        | Shape::Misplaced
        | Shape::Listed(_, _)
        | Shape::Block(_, _, _, _) => emit_code(at, shape, names, out),
    }
}
