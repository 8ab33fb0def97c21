//! Data: values and zero bytes.

ghost use Rattle.std.specs.Prelude.{◌≡◌, ◌++◌, ◌<◌, ◌+◌, ◌-◌, ◌*◌, ◌%◌, ◌^◌, false, ◌∷◌, [], true, nat_abs, pos, nat_eq, not, OnOk, IfErr, Option, Some, None};
ghost use Rattle.std.specs.List.{list_any, repeat};
ghost use Rattle.thumb_encode.specs.Codes.{scale};
ghost use Rattle.thumb_asm.specs.declared.Cause.{Cause as Why};
ghost use Rattle.thumb_asm.specs.Meaning.{value, low_first, number_bytes, value_bytes, data_bytes};
ghost use Rattle.thumb_asm.specs.Causes.{is_unknown, is_beyond, shape_cause};
ghost use Rattle.thumb_asm.specs.Parts.{operand_pieces};
ghost use Rattle.thumb_asm.specs.Syntax.{Data};
ghost use Rattle.thumb_asm.specs.Passes.{env_in, Stops};
ghost use Rattle.thumb_asm.specs.Outputs.{Gave};

use super::expr::value;
use super::index::KnownNames;
use super::parts::Pieces;
use super::{Cause, Stop};
use thumb_insn::Size;

fn push(byte: u8, out: &mut Vec<u8>) -> Result<(), Stop>
    ensures ok { OnOk result (out.new.items ≡ out.old.items ++ (byte ∷ [])) }
    ensures err { IfErr result (λ e. (cause : Option Why) → Stops e cause) }
{
    match out.push(byte) {
        Ok(()) => Ok(()),
        Err(_) => Err(Stop::Memory),
    }
}

/// Appends zero bytes.
pub(crate) fn push_zeros(count: u32, out: &mut Vec<u8>) -> Result<(), Stop>
    ensures ok { OnOk result (out.new.items ≡ out.old.items ++ repeat count (0 ∷ [])) }
    ensures err { IfErr result (λ e. (cause : Option Why) → Stops e cause) }
{
    for i in 0..count {
        match push(0, out) {
            Ok(()) => {}
            Err(stop) => return Err(stop),
        }
    }
    Ok(())
}

fn is_unknown(piece: &[u8], names: &KnownNames<'_>) -> bool
    ensures { result ≡ is_unknown (value (env_in names.now.labels.now names.now.symbols.now)
        piece.now) }
{
    match value(piece, names) {
        None => true,
        Some(_) => false,
    }
}

/// The number of values that a size can have.
fn limit(size: Size) -> i64
    ensures { result ≡ pos (256 ^ scale size) }
{
    match size {
        Size::Word => 0x1_0000_0000,
        Size::Half => 0x1_0000,
        Size::Byte => 0x100,
    }
}

/// Whether a value is outside both the signed and the unsigned range of its size.
fn is_beyond(size: Size, number: i64) -> bool
    requires { nat_abs number < 2 ^ 34 }
    ensures { result ≡ is_beyond (scale size) (Some number) }
{
    let limit = limit(size);
    if number < 0 {
        2 * (-1 - number) >= limit
    } else {
        number >= limit
    }
}

fn is_out(size: Size, piece: &[u8], names: &KnownNames<'_>) -> bool
    ensures { result ≡ is_beyond (scale size)
        (value (env_in names.now.labels.now names.now.symbols.now) piece.now) }
{
    match value(piece, names) {
        None => false,
        Some(number) => is_beyond(size, number),
    }
}

fn has_unknown(pieces: &[u8], names: &KnownNames<'_>) -> bool
    ensures { result ≡ list_any (λ e. is_unknown
        (value (env_in names.now.labels.now names.now.symbols.now) e)) (operand_pieces pieces.now) }
{
    let mut left = Pieces::of(pieces);
    'pieces: while let Some(piece) = left.next() {
        if is_unknown(piece, names) {
            return true;
        }
    }
    false
}

fn has_beyond(size: Size, pieces: &[u8], names: &KnownNames<'_>) -> bool
    ensures { result ≡ list_any (λ e. is_beyond (scale size)
        (value (env_in names.now.labels.now names.now.symbols.now) e)) (operand_pieces pieces.now) }
{
    let mut left = Pieces::of(pieces);
    'pieces: while let Some(piece) = left.next() {
        if is_out(size, piece, names) {
            return true;
        }
    }
    false
}

/// Appends the low bytes of a number, little-endian.
fn push_low(size: Size, number: u32, out: &mut Vec<u8>) -> Result<(), Stop>
    ensures ok { OnOk result (out.new.items ≡ out.old.items ++ low_first (scale size) number) }
    ensures err { IfErr result (λ e. (cause : Option Why) → Stops e cause) }
{
    match size {
        Size::Byte => push((number % 256) as u8, out),
        Size::Half => push_half(number, out),
        Size::Word => {
            match push_half(number, out) {
                Ok(()) => {}
                Err(stop) => return Err(stop),
            }
            push_half(number / 65536, out)
        }
    }
}

/// Appends the two low bytes of a number.
fn push_half(number: u32, out: &mut Vec<u8>) -> Result<(), Stop>
    ensures ok { OnOk result (out.new.items ≡ out.old.items ++ low_first 2 number) }
    ensures err { IfErr result (λ e. (cause : Option Why) → Stops e cause) }
{
    match push((number % 256) as u8, out) {
        Ok(()) => {}
        Err(stop) => return Err(stop),
    }
    push((number / 256 % 256) as u8, out)
}

/// A value as an unsigned number of its size.
fn unsigned(size: Size, number: i64) -> u32
    requires small { nat_abs number < 2 ^ 34 }
    requires within { is_beyond (scale size) (Some number) ≡ false }
    ensures { low_first (scale size) result ≡ number_bytes (scale size) number }
{
    if number < 0 {
        (number + limit(size)) as u32
    } else {
        number as u32
    }
}

/// Appends a value.
fn push_value(size: Size, number: i64, out: &mut Vec<u8>) -> Result<(), Stop>
    requires small { nat_abs number < 2 ^ 34 }
    requires within { is_beyond (scale size) (Some number) ≡ false }
    ensures ok { OnOk result (out.new.items ≡ out.old.items ++ number_bytes (scale size) number) }
    ensures err { IfErr result (λ e. (cause : Option Why) → Stops e cause) }
{
    push_low(size, unsigned(size, number), out)
}

/// Appends the value of a piece.
fn push_piece(
    size: Size,
    piece: &[u8],
    names: &KnownNames<'_>,
    out: &mut Vec<u8>,
) -> Result<(), Stop>
    requires known { is_unknown (value (env_in names.now.labels.now names.now.symbols.now)
        piece.now) ≡ false }
    requires within { is_beyond (scale size)
        (value (env_in names.now.labels.now names.now.symbols.now) piece.now) ≡ false }
    ensures ok { OnOk result (out.new.items ≡ out.old.items
        ++ value_bytes (scale size) (value (env_in names.now.labels.now names.now.symbols.now)
        piece.now)) }
    ensures err { IfErr result (λ e. (cause : Option Why) → Stops e cause) }
{
    match value(piece, names) {
        None => unreachable!(),
        Some(number) => push_value(size, number, out),
    }
}

/// Appends values that are known and in range.
fn push_all(
    size: Size,
    pieces: &[u8],
    names: &KnownNames<'_>,
    out: &mut Vec<u8>,
) -> Result<(), Stop>
    requires known { list_any (λ e. is_unknown
        (value (env_in names.now.labels.now names.now.symbols.now) e)) (operand_pieces pieces.now) ≡
        false }
    requires within { list_any (λ e. is_beyond (scale size)
        (value (env_in names.now.labels.now names.now.symbols.now) e)) (operand_pieces pieces.now) ≡
        false }
    ensures ok { OnOk result (out.new.items ≡ out.old.items
        ++ data_bytes (env_in names.now.labels.now names.now.symbols.now) (scale size)
        (operand_pieces pieces.now)) }
    ensures err { IfErr result (λ e. (cause : Option Why) → Stops e cause) }
{
    let mut left = Pieces::of(pieces);
    'pieces: while let Some(piece) = left.next() {
        match push_piece(size, piece, names, out) {
            Ok(()) => {}
            Err(stop) => return Err(stop),
        }
    }
    Ok(())
}

/// Whether an address is not a multiple of the size of the values.
fn is_misplaced(at: u32, size: Size) -> bool
    ensures { result ≡ not (nat_eq (at % scale size) 0) }
{
    match size {
        Size::Word => at % 4 != 0,
        Size::Half => at % 2 != 0,
        Size::Byte => false,
    }
}

/// Appends values, or returns why they are refused.
#[tactic(auto, unfolding(crate::specs::Causes::shape_cause))]
pub(crate) fn emit(
    at: u32,
    size: Size,
    pieces: &[u8],
    names: &KnownNames<'_>,
    out: &mut Vec<u8>,
) -> Result<(), Stop>
    ensures ok { OnOk result (Gave (env_in names.now.labels.now names.now.symbols.now) at
        (Data (scale size) (operand_pieces pieces.now)) out.old.items out.new.items) }
    ensures err { IfErr result (λ e. Stops e
        (shape_cause (env_in names.now.labels.now names.now.symbols.now) at
        (Data (scale size) (operand_pieces pieces.now)))) }
{
    if is_misplaced(at, size) {
        return Err(Stop::Cause(Cause::Misaligned));
    }
    if has_unknown(pieces, names) {
        return Err(Stop::Cause(Cause::UnknownSymbol));
    }
    if has_beyond(size, pieces, names) {
        return Err(Stop::Cause(Cause::OutOfRange));
    }
    push_all(size, pieces, names, out)
}
