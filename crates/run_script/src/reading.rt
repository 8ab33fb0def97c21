//! Reads a script from bytes, or gives the first cause why they are refused.

ghost use Rattle.std.specs.Prelude.{◌≡◌, IfOk, IfErr, IfSome, OnOk, Ok, Err};
ghost use Rattle.run_script.specs.Drafts.{Refuses, drafted};
ghost use Rattle.run_script.specs.Events.{script_data, stated};
ghost use Rattle.run_script.specs.Scripts.{script_or_fault, with_statement};
ghost use Rattle.run_script.specs.Statements.{statement_of};

use crate::draft::{Draft, empty_draft, take};
use crate::events::ScriptFault;
use crate::script::Script;
use crate::statement::statement_of;
use std::alloc::Global;
use text_lines::Lines;

/// Adds one more line to the draft.
fn read_line(alloc: Global, draft: &mut Draft, text: &[u8], line: usize) -> Result<(), ScriptFault>
    ensures ok { OnOk result (with_statement (drafted draft.old) (statement_of text.now) ≡ Ok
        (drafted draft.new)) }
    ensures err { IfErr result (λ e. Refuses e line
        (with_statement (drafted draft.old) (statement_of text.now))) }
{
    match statement_of(alloc, text) {
        Err(_) => Err(ScriptFault::Memory),
        Ok(statement) => take(draft, statement, line),
    }
}

fn draft_of(alloc: Global, bytes: &[u8]) -> Result<Draft, ScriptFault>
    ensures ok { IfOk result (λ d. script_or_fault bytes.now ≡ Ok (drafted d).script) }
    ensures refused { IfErr result (λ e.
        IfSome (stated e) (λ t. script_or_fault bytes.now ≡ Err t)) }
{
    let mut draft = empty_draft(alloc);
    let mut number = 0usize;
    let mut lines = Lines::of(bytes);
    'lines: while let Some(line) = lines.next() {
        number += 1;
        match read_line(alloc, &mut draft, line, number) {
            Err(fault) => return Err(fault),
            Ok(()) => {}
        }
    }
    Ok(draft)
}

impl Script {
    /// The script that the bytes spell. Otherwise the first cause why they are refused, with its
    /// line, in the order of docs/FORMATS.md, Script, or `Memory` if memory ran out. Lines are
    /// counted from 1.
    pub fn read(alloc: Global, bytes: &[u8]) -> Result<Script, ScriptFault>
        ensures ok { IfOk result (λ s. script_or_fault bytes.now ≡ Ok (script_data s)) }
        ensures refused { IfErr result (λ e.
            IfSome (stated e) (λ t. script_or_fault bytes.now ≡ Err t)) }
    {
        match draft_of(alloc, bytes) {
            Err(fault) => Err(fault),
            Ok(draft) => Ok(draft.script),
        }
    }
}
