//! The calls of tasks, and the arrows between lanes (docs/FORMATS.md, Picture).
ghost use Rattle.std.specs.Prelude.{◌≡◌, ◌≤◌, length, option_to_list};
ghost use Rattle.std.specs.List.{list_any};
ghost use Rattle.run_lanes.specs.Columns.{is_birth_of};
ghost use Rattle.run_lanes.specs.Told.{arrows_of, by, calls_after, client_of, closed, closed_arrow, has_asked, longer, offered};

use kernel_abi::{Ending, Note};
use lane_picture::{Arrow, ArrowKind, AskedCall, Longest, TaskCalls};

/// The calls of a task that has offered none yet.
pub const NO_CALLS: TaskCalls = TaskCalls {
    count: 0,
    asked: None,
    longest: None,
};

// Whether the call that a task has open has this number.
fn has_asked(call: u32, asked: &Option<AskedCall>) -> bool
    ensures { result ≡ has_asked call asked.now }
{
    match asked {
        Some(asked) => asked.call == call,
        None => false,
    }
}

// A call, and the index of its client.
fn by(client: u16, asked: Option<AskedCall>) -> Option<(u16, AskedCall)>
    ensures { result ≡ by client asked }
{
    match asked {
        Some(asked) => Some((client, asked)),
        None => None,
    }
}

// The first task that has the call open, and the call.
fn client_of(calls: &[TaskCalls], call: u32) -> Option<(u16, AskedCall)>
    requires few { length calls.now ≤ 65536 }
    ensures { result ≡ client_of call 0 calls.now }
{
    for (i, c) in calls.iter().enumerate() {
        if has_asked(call, &c.asked) {
            return by(i as u16, c.asked);
        }
    }
    None
}

// The longer of two calls; the first one if they are equal.
fn longer(longest: Option<Longest>, other: Longest) -> Longest
    ensures { result ≡ longer longest other }
{
    match longest {
        None => other,
        Some(longest) => {
            if longest.turns < other.turns {
                other
            } else {
                longest
            }
        }
    }
}

// The calls of a task that offers one more.
fn offered(call: u32, server: u16, turn: u32, calls: &TaskCalls) -> TaskCalls
    ensures { result ≡ offered call server turn calls.now }
{
    TaskCalls {
        count: calls.count.saturating_add(1),
        asked: Some(AskedCall {
            call,
            server,
            since: turn,
        }),
        longest: calls.longest,
    }
}

// The calls of a task whose open call is closed.
fn closed(turn: u32, asked: &AskedCall, calls: &TaskCalls) -> TaskCalls
    ensures { result ≡ closed turn asked.now calls.now }
{
    let last = Longest {
        server: asked.server,
        from: asked.since,
        turns: turn.saturating_sub(asked.since),
    };
    TaskCalls {
        count: calls.count,
        asked: None,
        longest: Some(longer(calls.longest, last)),
    }
}

/// Brings the calls up to date with a note of a turn.
pub fn renew(turn: u32, note: &Note, calls: &mut [TaskCalls])
    requires few { length calls.old ≤ 65536 }
    ensures { calls.new ≡ calls_after turn calls.old note.now }
{
    match note {
        Note::Offer {
            call,
            client,
            server,
        } => {
            let i = usize::from(*client);
            if i < calls.len() {
                calls[i] = offered(*call, *server, turn, &calls[i]);
            }
        }
        Note::Close { call, .. } => match client_of(calls, *call) {
            Some((client, asked)) => {
                let i = usize::from(client);
                if i < calls.len() {
                    calls[i] = closed(turn, &asked, &calls[i]);
                }
            }
            None => {}
        },
        _ => {}
    }
}

// Whether a note says that the task is born again.
fn is_birth_of(task: u16, note: &Note) -> bool
    ensures { result ≡ is_birth_of task note.now }
{
    match note {
        Note::Restart { task: born, .. } => *born == task,
        _ => false,
    }
}

// Whether the task is born again in a turn with these notes.
fn is_born(task: u16, notes: &[Note]) -> bool
    ensures { result ≡ list_any (is_birth_of task) notes.now }
{
    notes.iter().any(|note| is_birth_of(task, note))
}

// The arrow of a call that is closed, from its server back to its client. There is none if the
// client ended the call, or is itself born again in this turn, of which these are the notes.
fn closed_arrow(
    turn: u32,
    notes: &[Note],
    ending: Ending,
    client: u16,
    asked: &AskedCall,
) -> Option<Arrow>
    ensures { option_to_list result ≡ closed_arrow turn notes.now ending (client, asked.now) }
{
    let way = match ending {
        Ending::Reply => ArrowKind::Answer,
        Ending::ReplyFault => ArrowKind::Break,
        Ending::Client => return None,
        Ending::Restart => {
            if is_born(client, notes) {
                return None;
            }
            ArrowKind::Break
        }
    };
    Some(Arrow {
        way,
        from: asked.server,
        at: turn,
        to: client,
        until: turn,
    })
}

/// The arrow of a note of a turn, if it has one: that of a call that is taken, which starts in the
/// turn of its offer, or that of a call that is closed. The turn has these notes.
pub fn arrow_of(turn: u32, notes: &[Note], calls: &[TaskCalls], note: &Note) -> Option<Arrow>
    requires few { length calls.now ≤ 65536 }
    ensures { option_to_list result ≡ arrows_of turn notes.now calls.now note.now }
{
    match note {
        Note::Take { call, .. } => match client_of(calls, *call) {
            Some((client, asked)) => Some(Arrow {
                way: ArrowKind::Call,
                from: client,
                at: asked.since,
                to: asked.server,
                until: turn,
            }),
            None => None,
        },
        Note::Close { call, ending } => match client_of(calls, *call) {
            Some((client, asked)) => closed_arrow(turn, notes, *ending, client, &asked),
            None => None,
        },
        _ => None,
    }
}
