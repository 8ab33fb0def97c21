//! Names with their values, in order of their bytes.

ghost use Rattle.std.specs.Prelude.{◌≡◌, List, ℕ, OnOk, IfOk, string_bytes, bytes_eq, true, option_map, IfSome, Option, Some, None, if◌then◌else◌};
ghost use Rattle.std.specs.BTreeMap.{get_by_text};
ghost use Rattle.thumb_asm.specs.Chars.{is_name};
ghost use Rattle.thumb_asm.specs.Passes.{names_of, symbol_values, env_in, given_in, values_of, Indexes, with_label, with_symbol};

use std::alloc::{AllocError, Global};
use std::collections::BTreeMap;

/// An index of symbols by their names. It is made once and can be used for many texts
/// (`assemble_with`).
#[derive(Drop)]
pub struct Symbols {
    pub(crate) values: BTreeMap<String, u32>,
}

/// The symbols that are given for a text: its own, and those that it shares with other texts.
#[derive(Clone, Copy)]
pub(crate) struct GivenSymbols<'a> {
    pub(crate) own: &'a Symbols,
    pub(crate) shared: &'a Symbols,
}

/// The labels of a text, and the symbols that are given for it.
#[derive(Clone, Copy)]
pub(crate) struct KnownNames<'a> {
    pub(crate) labels: &'a BTreeMap<String, u32>,
    pub(crate) symbols: &'a GivenSymbols<'a>,
}

pub(crate) fn is_same(a: &[u8], b: &[u8]) -> bool
    ensures { result ≡ bytes_eq a.now b.now }
{
    a == b
}

/// The value of a name.
pub(crate) fn find(index: &BTreeMap<String, u32>, name: &[u8]) -> Option<u32>
    requires { is_name name.now ≡ true }
    ensures { result ≡ get_by_text index.now name.now }
{
    match str::from_utf8(name) {
        Ok(text) => index.get(text).copied(),
        Err(_) => unreachable!(),
    }
}

impl GivenSymbols<'_> {
    /// The value of the text's own symbol, or else of the shared one.
    pub(crate) fn value(&self, name: &[u8]) -> Option<u32>
        requires { is_name name.now ≡ true }
        ensures { result ≡ given_in self.now name.now }
    {
        match find(&self.own.values, name) {
            Some(value) => Some(value),
            None => find(&self.shared.values, name),
        }
    }
}

impl KnownNames<'_> {
    /// The value of a label, or else of a symbol.
    pub(crate) fn value(&self, name: &[u8]) -> Option<u32>
        requires { is_name name.now ≡ true }
        ensures { result ≡ env_in self.now.labels.now self.now.symbols.now name.now }
    {
        match find(self.labels, name) {
            Some(value) => Some(value),
            None => self.symbols.value(name),
        }
    }
}

/// Gives a name a value, which replaces the one that it had.
#[tactic(auto, using(std::proofs::lemmas::Map::Text::text_keys))]
fn insert(index: &mut BTreeMap<String, u32>, name: String, value: u32) -> Result<(), AllocError>
    ensures { OnOk result ((q : List ℕ) →
        get_by_text index.new q ≡ (if bytes_eq q (string_bytes name) then Some value else
        get_by_text index.old q)) }
{
    index.insert(name, value)?;
    Ok(())
}

/// A name as a string.
pub(crate) fn text(alloc: Global, name: &[u8]) -> Result<String, AllocError>
    requires { is_name name.now ≡ true }
    ensures { IfOk result (λ t. string_bytes t ≡ name.now) }
{
    match str::from_utf8(name) {
        Ok(text) => String::from_str(alloc, text),
        Err(_) => unreachable!(),
    }
}

/// Adds a line's label.
pub(crate) fn add(
    alloc: Global,
    labels: &mut BTreeMap<String, u32>,
    label: Option<&[u8]>,
    at: u32,
) -> Result<(), AllocError>
    requires { IfSome label (λ name. is_name name.now ≡ true) }
    ensures { OnOk result ((q : List ℕ) →
        get_by_text labels.new q ≡ with_label at (option_map (λ r. r.now) label.entry)
        (get_by_text labels.old) q) }
{
    match label {
        None => Ok(()),
        Some(name) => {
            let name = text(alloc, name)?;
            insert(labels, name, at)
        }
    }
}

/// Gives a name a value, unless it has one.
fn add_symbol(
    alloc: Global,
    index: &mut BTreeMap<String, u32>,
    name: &str,
    value: u32,
) -> Result<(), AllocError>
    ensures { OnOk result ((q : List ℕ) →
        get_by_text index.new q ≡ with_symbol name.now value (get_by_text index.old) q) }
{
    match index.get(name) {
        Some(_) => Ok(()),
        None => insert(index, String::from_str(alloc, name)?, value),
    }
}

/// The symbols by their names; of two with the same name the first counts.
fn of_symbols(alloc: Global, symbols: &[(String, u32)]) -> Result<BTreeMap<String, u32>, AllocError>
    ensures { IfOk result (λ index. Indexes index (names_of symbols.now)) }
{
    let mut index: BTreeMap<String, u32> = BTreeMap::new(alloc);
    for symbol in symbols {
        add_symbol(alloc, &mut index, symbol.0.as_str(), symbol.1)?;
    }
    Ok(index)
}

impl Symbols {
    /// No symbols.
    pub(crate) fn none(alloc: Global) -> Symbols
        ensures { (name : List ℕ) → values_of result name ≡ None }
    {
        let values: BTreeMap<String, u32> = BTreeMap::new(alloc);
        Symbols { values }
    }

    /// An index of these symbols; of two with the same name the first counts.
    pub fn of(alloc: Global, symbols: &[(String, u32)]) -> Result<Symbols, AllocError>
        ensures { IfOk result (λ s. values_of s ≡ symbol_values symbols.now) }
    {
        let values = of_symbols(alloc, symbols)?;
        Ok(Symbols { values })
    }
}
