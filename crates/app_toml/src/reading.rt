//! Reads an application description from bytes, or gives the first cause why they are refused.

ghost use Rattle.std.specs.Prelude.{◌≡◌, IfErr, IfOk, IfSome, Err, None, Ok, Some};
ghost use Rattle.toml.specs.View.{table_view};
ghost use Rattle.app_toml.specs.Accepted.{IsAccepted};
ghost use Rattle.app_toml.specs.Held.{app_of, parts_of, stated};
ghost use Rattle.app_toml.specs.Reading.{app_or_fault, not_toml, parsed, read_app};

use crate::app::App;
use crate::crossed::cross_fault;
use crate::document::form_fault;
use crate::parts::{AppFault, Parts};
use crate::places::{PlacedCause, head_place, stated};
use crate::values::parts_in;
use std::alloc::Global;
use toml::Table;

fn no_toml(alloc: Global) -> AppFault
    ensures { IfSome (stated result) (λ t. t ≡ not_toml) }
{
    stated(
        alloc,
        PlacedCause {
            cause: 1,
            place: head_place("-"),
        },
    )
}

/// The document that the bytes are.
fn document_of(alloc: Global, bytes: &[u8]) -> Result<Table, AppFault>
    ensures ok { IfOk result (λ t. parsed bytes.now ≡ Some (table_view t)) }
    ensures refused { IfErr result (λ e.
        IfSome (stated e) (λ t. (parsed bytes.now ≡ None) × (t ≡ not_toml))) }
{
    let text = match std::str::from_utf8(bytes) {
        Ok(text) => text,
        Err(_) => return Err(no_toml(alloc)),
    };
    match toml::table_from_str(alloc, text) {
        Ok(table) => Ok(table),
        Err(error) => {
            if error.is_memory() {
                Err(AppFault::Memory)
            } else {
                Err(no_toml(alloc))
            }
        }
    }
}

/// The description of these parts, whose values have their forms and which no cause refuses.
pub(crate) fn app_of_parts(parts: Parts) -> App
    requires { IsAccepted (parts_of parts) }
    ensures { app_of result ≡ parts_of parts }
{
    App {
        flash: parts.flash,
        ram: parts.ram,
        fault: parts.fault,
        tasks: parts.tasks,
        regions: parts.regions,
        devices: parts.devices,
        interrupts: parts.interrupts,
    }
}

fn app_of_document(alloc: Global, document: &Table) -> Result<App, AppFault>
    ensures ok { IfOk result (λ a. app_or_fault (Some (table_view document.now)) ≡ Ok (app_of a)) }
    ensures refused { IfErr result (λ e.
        IfSome (stated e) (λ t. app_or_fault (Some (table_view document.now)) ≡ Err t)) }
{
    match form_fault(document) {
        Some(fault) => return Err(stated(alloc, fault)),
        None => {}
    }
    let parts = match parts_in(alloc, document) {
        Ok(parts) => parts,
        Err(_) => return Err(AppFault::Memory),
    };
    let found = match cross_fault(alloc, &parts) {
        Ok(found) => found,
        Err(_) => return Err(AppFault::Memory),
    };
    match found {
        Some(fault) => Err(stated(alloc, fault)),
        None => Ok(app_of_parts(parts)),
    }
}

impl App {
    /// The description that the bytes hold. Otherwise the first cause why they are refused, with
    /// its place, in the order of docs/FORMATS.md, Application, or `Memory` if memory ran out.
    pub fn read(alloc: Global, bytes: &[u8]) -> Result<App, AppFault>
        ensures ok { IfOk result (λ a. read_app bytes.now ≡ Ok (app_of a)) }
        ensures refused { IfErr result (λ e.
            IfSome (stated e) (λ t. read_app bytes.now ≡ Err t)) }
    {
        let document = match document_of(alloc, bytes) {
            Ok(document) => document,
            Err(fault) => return Err(fault),
        };
        app_of_document(alloc, &document)
    }
}
