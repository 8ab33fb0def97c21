//! A script that is being read.

ghost use Rattle.std.specs.Prelude.{◌≡◌, ◌<◌, OnOk, IfErr, Ok, length, map, replicate};
ghost use Rattle.run_script.specs.declared.events.Event.TheVariants.{Feed};
ghost use Rattle.run_script.specs.Drafts.{AreTurns, IsKnown, Refuses, drafted, said};
ghost use Rattle.run_script.specs.Events.{script_data};
ghost use Rattle.run_script.specs.Facts.{HasDevice, HasLine, IsListed, IsPeriod};
ghost use Rattle.run_script.specs.Scripts.{no_script, reading, with_listed, with_period, with_series, with_statement};

use crate::events::{Event, ScriptFault};
use crate::script::Script;
use crate::statement::Statement;
use crate::turns::{first_of, listed_at};
use std::alloc::Global;

/// The largest number of events that a script may list, and that one turn may have.
pub(crate) const MOST: usize = 65536;

pub(crate) const MOST_OF_TURN: u8 = 8;

/// A script and what else is known after the lines that have been read.
#[derive(Drop)]
pub(crate) struct Draft {
    pub(crate) script: Script,
    /// The first turn of the last line that lists events; 0 if no line does.
    pub(crate) from: u32,
}

pub(crate) fn empty_draft(alloc: Global) -> Draft
    ensures { drafted result ≡ reading 0 no_script }
{
    Draft {
        script: Script {
            every: None,
            events: Vec::new(alloc),
        },
        from: 0,
    }
}

fn add_period(script: &mut Script, period: u32, line: usize) -> Result<(), ScriptFault>
    requires { IsPeriod period }
    ensures ok { OnOk result (with_period (script_data script.old) period ≡ Ok
        (script_data script.new)) }
    ensures err { IfErr result (λ e. Refuses e line (with_period (script_data script.old) period)) }
{
    if script.every.is_some() || script.events.len() > 0 {
        return Err(ScriptFault::Refused { cause: 4, line });
    }
    script.every = Some(period);
    Ok(())
}

/// Lists an event after those of its turn and of the turns before.
fn add_event(script: &mut Script, turn: u32, event: Event, line: usize) -> Result<(), ScriptFault>
    requires { IsListed (turn, event) }
    ensures ok { OnOk result (with_listed (script_data script.old) turn event ≡ Ok
        (script_data script.new)) }
    ensures err { IfErr result (λ e. Refuses e line
        (with_listed (script_data script.old) turn event)) }
{
    if script.events.len() >= MOST {
        return Err(ScriptFault::Refused { cause: 5, line });
    }
    if listed_at(
        script,
        first_of(script, turn),
        turn,
        MOST_OF_TURN as u32 - 1,
    )
    .is_some()
    {
        return Err(ScriptFault::Refused { cause: 5, line });
    }
    let at = first_of(script, turn + 1);
    match script.events.insert(at, (turn, event)) {
        Err(_) => Err(ScriptFault::Memory),
        Ok(()) => Ok(()),
    }
}

/// Lists an event `times` times, first in turn `first` and then every `step` turns.
fn add_repeats(
    script: &mut Script,
    first: u32,
    step: u32,
    times: u32,
    event: Event,
    line: usize,
) -> Result<(), ScriptFault>
    requires turns { AreTurns first step times }
    requires line { HasLine event }
    requires device { HasDevice event }
    ensures ok { OnOk result (with_series (script_data script.old) first step
        (replicate times event) ≡ Ok (script_data script.new)) }
    ensures err { IfErr result (λ e. Refuses e line (with_series (script_data script.old) first step
        (replicate times event))) }
{
    let mut turn = first;
    for _k in 0..times {
        match add_event(script, turn, event, line) {
            Err(fault) => return Err(fault),
            Ok(()) => turn += step,
        }
    }
    Ok(())
}

/// Lists bytes for a device, the first byte in a given turn and each further one `step` turns
/// later.
fn add_bytes(
    script: &mut Script,
    first: u32,
    step: u32,
    device: u8,
    bytes: &[u8],
    line: usize,
) -> Result<(), ScriptFault>
    requires turns { AreTurns first step (length bytes.now) }
    requires device { device < 8 }
    ensures ok { OnOk result (with_series (script_data script.old) first step
        (map (λ byte. Feed device byte) bytes.now) ≡ Ok (script_data script.new)) }
    ensures err { IfErr result (λ e. Refuses e line (with_series (script_data script.old) first step
        (map (λ byte. Feed device byte) bytes.now))) }
{
    let mut turn = first;
    for byte in bytes {
        let event = Event::Feed {
            device,
            byte: *byte,
        };
        match add_event(script, turn, event, line) {
            Err(fault) => return Err(fault),
            Ok(()) => turn += step,
        }
    }
    Ok(())
}

/// Adds the statement of a line to the draft, or gives the cause why the draft refuses it.
pub(crate) fn take(draft: &mut Draft, statement: Statement, line: usize) -> Result<(), ScriptFault>
    requires { IsKnown statement }
    ensures ok { OnOk result (with_statement (drafted draft.old) (said statement) ≡ Ok
        (drafted draft.new)) }
    ensures err { IfErr result (λ e. Refuses e line
        (with_statement (drafted draft.old) (said statement))) }
{
    match statement {
        Statement::Nothing => Ok(()),
        Statement::Every { period } => add_period(&mut draft.script, period, line),
        Statement::Repeats {
            first,
            step,
            times,
            event,
        } => {
            if first < draft.from {
                return Err(ScriptFault::Refused { cause: 4, line });
            }
            draft.from = first;
            add_repeats(&mut draft.script, first, step, times, event, line)
        }
        Statement::Bytes {
            first,
            step,
            device,
            bytes,
        } => {
            if first < draft.from {
                return Err(ScriptFault::Refused { cause: 4, line });
            }
            draft.from = first;
            add_bytes(&mut draft.script, first, step, device, &bytes, line)
        }
        Statement::Refused { cause } => Err(ScriptFault::Refused { cause, line }),
    }
}
