//! Makes the script of an arrival time, in room that was taken before.
ghost use Rattle.std.specs.Prelude.{◌≡◌, ◌<◌, ◌≤◌, ◌+◌, ℕ, true, length};
ghost use Rattle.std.specs.List.{All};
ghost use Rattle.run_script.specs.Events.{script_data};
ghost use Rattle.run_script.specs.Laying.{HasRoom};
ghost use Rattle.board_model.specs.Laid.{may_be_laid};
ghost use Rattle.board_model.specs.SameScripts.{IsLaid};
ghost use Rattle.sweep_core.specs.Swept.{is_late};

use run_script::Script;

/// Lays the events of an arrival over a script, from turn `time` on. In each turn they come after
/// the script's events. Returns false if the result is not a script; `laid` is useless then.
pub(crate) fn lay(laid: &mut Script, script: &Script, arrival: &Script, time: u32) -> bool
    requires room { HasRoom laid.old (length (script_data script.now).events + length
        (script_data arrival.now).events) }
    requires early { time ≤ 1000000000 }
    ensures made { result ≡ may_be_laid (script_data script.now) (script_data arrival.now).events
        time }
    ensures same { result ≡ true → IsLaid (script_data laid.new) (script_data script.now)
        (script_data arrival.now).events time }
    ensures room { (n : ℕ) → HasRoom laid.old n → HasRoom laid.new n }
    ensures count { result ≡ true → length (script_data laid.new).events ≡ length
        (script_data script.now).events + length (script_data arrival.now).events }
{
    laid.become_as(script);
    for place in 0..arrival.count() {
        match arrival.listed_event(place) {
            Some((turn, event)) => {
                if !laid.add(time + turn, event) {
                    return false;
                }
            }
            None => unreachable!(),
        }
    }
    true
}

/// How many turns an arrival lasts: all its events are due less than that many turns after the
/// arrival time.
pub(crate) fn span(arrival: &Script) -> u32
    ensures all { All (λ d. d.0 < result) (script_data arrival.now).events }
    ensures few { result ≤ 1000000000 }
{
    let mut span = 0;
    for place in 0..arrival.count() {
        if let Some((turn, _event)) = arrival.listed_event(place) {
            span = span.max(turn + 1);
        }
    }
    span
}

/// Whether an event of an arrival would come in turn `limit` or later, which a run of at most
/// `limit` turns does not reach.
pub(crate) fn is_late(arrival: &Script, time: u32, limit: u32) -> bool
    requires early { time ≤ 1000000000 }
    ensures { result ≡ is_late (script_data arrival.now).events time limit }
{
    for place in 0..arrival.count() {
        match arrival.listed_event(place) {
            Some((turn, _event)) => {
                if limit <= time + turn {
                    return true;
                }
            }
            None => unreachable!(),
        }
    }
    false
}
