//! What the result of a sweep says about each arrival time. Nothing runs here.
ghost use Rattle.std.specs.Prelude.{◌≡◌, ℕ, false};
ghost use Rattle.board_model.specs.Script.{Scenario};
ghost use Rattle.sweep_core.specs.Swept.{Asking, IsAsked, IsNoWorse, arrival_run, base_run, makes_difference, outcome_at};

/// A sweep that finds no difference says this about each arrival time that is asked for and for
/// which a run is made. Its run has no more faults than the run without the arrival, and ends by a
/// fault of the supervisor only if that run does. All these runs have the same outcome.
/// (docs/FORMATS.md, Sweep: status 0.)
pub fn no_difference_says_so_of_each_time()
    ensures worse { (x : Scenario) (a : Asking) (time : ℕ) → makes_difference x a ≡ false →
        IsAsked x a time → IsNoWorse (base_run x a) (arrival_run x a time) }
    ensures one { (x : Scenario) (a : Asking) (time other : ℕ) → makes_difference x a ≡ false →
        IsAsked x a time → IsAsked x a other → outcome_at x a time ≡ outcome_at x a other }
{}
