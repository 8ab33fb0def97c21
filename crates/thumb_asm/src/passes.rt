//! The two passes of the assembler.

ghost use Rattle.std.specs.Prelude.{ℕ, Option, ◌≡◌, ◌<◌, ◌≤◌, ◌+◌, ◌^◌, ◌-◌, [], option_map, OnOk, IfOk, IfErr, None, Some};
ghost use Rattle.std.specs.BTreeMap.{get_by_text};
ghost use Rattle.text_lines.specs.Text.{lines_of};
ghost use Rattle.thumb_asm.specs.Parts.{parts};
ghost use Rattle.thumb_asm.specs.Sizes.{statement_of};
ghost use Rattle.thumb_asm.specs.Assembly.{Assembles};
ghost use Rattle.thumb_asm.specs.Causes.{first_group, second_group, label_cause, first_in, second_in, first_cause, at_line};
ghost use Rattle.thumb_asm.specs.declared.Cause.{Cause};
ghost use Rattle.thumb_asm.specs.Passes.{symbol_values, values_of, given_in, over, env_in, Stops, Refuses, Emitted, HasPlace, HavePlaces, HaveBytes, size_from};

use super::index::{self, GivenSymbols, KnownNames, Symbols, find};
use super::parts::line_of;
use super::shape::{self, Shape};
use super::words::{are_allowed, is_name, register};
use super::{AsmFault, Cause, Stop};
use std::alloc::Global;
use std::collections::BTreeMap;
use text_lines::Lines;

/// The result of assembling a text.
#[derive(Drop)]
pub struct Object {
    /// The bytes of the lines one after another, the first one at the base.
    pub bytes: Vec<u8>,
    /// Each label with the address of its line.
    pub labels: BTreeMap<String, u32>,
}

/// The result of the first pass.
#[derive(Drop)]
struct Survey {
    labels: BTreeMap<String, u32>,
    size: u32,
}

/// Why a label is refused.
fn check_label(label: Option<&[u8]>, names: &KnownNames<'_>) -> Option<Cause>
    ensures { result ≡ label_cause (given_in names.now.symbols.now)
        (get_by_text names.now.labels.now) (option_map (λ r. r.now) label.entry) }
{
    match label {
        None => None,
        Some(name) => {
            if !is_name(name) {
                Some(Cause::BadLabel)
            } else if register(name).is_some() || names.symbols.value(name).is_some() {
                Some(Cause::NameClash)
            } else if find(names.labels, name).is_some() {
                Some(Cause::LabelTwice)
            } else {
                None
            }
        }
    }
}

/// How many bytes a line takes, or why it is refused.
#[tactic(auto, unfolding(crate::specs::Causes::first_group, crate::specs::Causes::line_size))]
fn survey_line(line: &[u8], base: u32, used: u32, names: &KnownNames<'_>) -> Result<u32, Cause>
    requires base { base + 1048576 < 2 ^ 32 }
    requires used { used ≤ 1048576 }
    ensures ok { IfOk result (HasPlace (given_in names.now.symbols.now) base
        (get_by_text names.now.labels.now) used line.now) }
    ensures err { IfErr result (λ c. first_group (given_in names.now.symbols.now) base
        (get_by_text names.now.labels.now) used line.now ≡ Some c) }
{
    if line.len() > 255 {
        return Err(Cause::LineTooLong);
    }
    if !are_allowed(line) {
        return Err(Cause::BadByte);
    }
    let parts = line_of(line);
    match check_label(parts.label, names) {
        Some(cause) => return Err(cause),
        None => {}
    }
    let found = shape::statement(parts.statement)?;
    match shape::room_for(&found, base, used) {
        None => Err(Cause::TooLong),
        Some(size) => Ok(size),
    }
}

/// The first pass: labels and sizes.
fn place_lines(
    alloc: Global,
    text: &[u8],
    base: u32,
    symbols: &GivenSymbols<'_>,
) -> Result<Survey, AsmFault>
    requires { base + 1048576 < 2 ^ 32 }
    ensures ok { IfOk result (λ s. HavePlaces (given_in symbols.now) base (lines_of text.now)
        s.labels s.size) }
    ensures err { IfErr result (λ e. Refuses e
        (first_in (given_in symbols.now) base [] 0 1 (lines_of text.now))) }
{
    let mut labels: BTreeMap<String, u32> = BTreeMap::new(alloc);
    let mut used = 0u32;
    let mut number = 0usize;
    let mut lines = Lines::of(text);
    'lines: while let Some(line) = lines.next() {
        number += 1;
        match survey_line(
            line,
            base,
            used,
            &KnownNames {
                labels: &labels,
                symbols: &*symbols,
            },
        ) {
            Err(cause) => return Err(AsmFault::Refused(cause, number)),
            Ok(size) => {
                index::add(alloc, &mut labels, line_of(line).label, base + used)?;
                used += size;
            }
        }
    }
    Ok(Survey { labels, size: used })
}

/// Appends the bytes of a line.
fn emit_line(at: u32, line: &[u8], names: &KnownNames<'_>, out: &mut Vec<u8>) -> Result<(), Stop>
    ensures ok { OnOk result (Emitted (env_in names.now.labels.now names.now.symbols.now) at
        line.now out.old.items out.new.items) }
    ensures err { IfErr result (λ e. Stops e
        (second_group (env_in names.now.labels.now names.now.symbols.now) at
        (statement_of (parts line.now).statement))) }
{
    match shape::statement(line_of(line).statement) {
        Ok(found) => match found {
            Some(shape) => shape::emit(at, &shape, names, out),
            None => Ok(()),
        },
        Err(_) => Ok(()),
    }
}

fn fault_at(stop: Stop, line: usize) -> AsmFault
    ensures { (cause : Option Cause) (later : Option (Cause × ℕ)) → Stops stop cause →
        Refuses result (at_line line cause later) }
{
    match stop {
        Stop::Memory => AsmFault::Memory,
        Stop::Cause(cause) => AsmFault::Refused(cause, line),
    }
}

/// The second pass: the bytes of all lines.
fn emit(alloc: Global, text: &[u8], base: u32, names: &KnownNames<'_>) -> Result<Vec<u8>, AsmFault>
    requires base { base + 1048576 < 2 ^ 32 }
    requires size { size_from base (lines_of text.now) ≤ 1048576 }
    ensures ok { IfOk result (λ v. HaveBytes (env_in names.now.labels.now names.now.symbols.now)
        base (lines_of text.now) v.items) }
    ensures err { IfErr result (λ e. Refuses e
        (second_in (env_in names.now.labels.now names.now.symbols.now) base 1
        (lines_of text.now))) }
{
    let mut out: Vec<u8> = Vec::new(alloc);
    let mut number = 0usize;
    let mut lines = Lines::of(text);
    'lines: while let Some(line) = lines.next() {
        number += 1;
        match emit_line(base + out.len() as u32, line, names, &mut out) {
            Err(stop) => return Err(fault_at(stop, number)),
            Ok(()) => {}
        }
    }
    Ok(out)
}

/// The same, with indexes of the symbols.
#[tactic(auto, unfolding(crate::specs::Causes::first_cause))]
fn assemble_given(
    alloc: Global,
    text: &[u8],
    base: u32,
    symbols: &GivenSymbols<'_>,
) -> Result<Object, AsmFault>
    requires { base + 1048576 < 2 ^ 32 }
    ensures accepted { IfOk result (λ o. first_cause (lines_of text.now) base (given_in symbols.now)
        ≡ None) }
    ensures assembled { IfOk result (λ o. Assembles (lines_of text.now) base (given_in symbols.now)
        o.bytes.items (get_by_text o.labels)) }
    ensures refused { IfErr result (λ e. Refuses e
        (first_cause (lines_of text.now) base (given_in symbols.now))) }
{
    match place_lines(alloc, text, base, symbols) {
        Err(fault) => Err(fault),
        Ok(survey) => match emit(
            alloc,
            text,
            base,
            &KnownNames {
                labels: &survey.labels,
                symbols: &*symbols,
            },
        ) {
            Err(fault) => Err(fault),
            Ok(bytes) => Ok(Object {
                bytes,
                labels: survey.labels,
            }),
        },
    }
}

/// `assemble` for many texts that share symbols. Besides labels, a name gets its value from `own`,
/// or else from `shared`. The index of the shared symbols is made once (`Symbols::of`). A label may
/// not have the name of a symbol of either.
pub fn assemble_with(
    alloc: Global,
    text: &[u8],
    base: u32,
    shared: &Symbols,
    own: &[(String, u32)],
) -> Result<Object, AsmFault>
    requires { base + 1048576 < 2 ^ 32 }
    ensures accepted { IfOk result (λ o. first_cause (lines_of text.now) base
        (over (symbol_values own.now) (values_of shared.now)) ≡ None) }
    ensures assembled { IfOk result (λ o. Assembles (lines_of text.now) base
        (over (symbol_values own.now) (values_of shared.now)) o.bytes.items
        (get_by_text o.labels)) }
    ensures refused { IfErr result (λ e. Refuses e
        (first_cause (lines_of text.now) base
        (over (symbol_values own.now) (values_of shared.now)))) }
{
    match Symbols::of(alloc, own) {
        Err(_) => Err(AsmFault::Memory),
        Ok(own) => assemble_given(alloc, text, base, &GivenSymbols { own: &own, shared }),
    }
}

/// The bytes and labels of a text whose first line is at the address `base`; or the first cause why
/// the text is refused, in the order of docs/FORMATS.md, Assembler. Besides labels, a name gets its
/// value from `symbols`; of two with the same name the first counts. The last byte of a text has an
/// address below 2^32.
pub fn assemble(
    alloc: Global,
    text: &[u8],
    base: u32,
    symbols: &[(String, u32)],
) -> Result<Object, AsmFault>
    requires { base + 1048576 < 2 ^ 32 }
    ensures accepted { IfOk result (λ o. first_cause (lines_of text.now) base
        (symbol_values symbols.now) ≡ None) }
    ensures assembled { IfOk result (λ o. Assembles (lines_of text.now) base
        (symbol_values symbols.now) o.bytes.items (get_by_text o.labels)) }
    ensures refused { IfErr result (λ e. Refuses e
        (first_cause (lines_of text.now) base (symbol_values symbols.now))) }
{
    assemble_with(alloc, text, base, &Symbols::none(alloc), symbols)
}
