//! The large sample of a seed: an application of 32 tasks, the sources of its tasks and a script.
//! specs/Sample.antt defines the generator. The application and the script of every seed are
//! accepted.
#![tactic(auto)]

ghost use Rattle.std.specs.Prelude.{◌≤◌, ℕ};
ghost use Rattle.std.specs.List.{count_by};
ghost use Rattle.app_toml.specs.Accepted.{IsAccepted};
ghost use Rattle.run_script.specs.Facts.{Facts};
ghost use Rattle.run_script.specs.Scripts.{is_of};
ghost use Rattle.sample_gen.specs.Sample.{sample_app, sample_script};

mod events;
mod making;
mod numbers;
mod programs;
mod tables;
mod tasks;

pub use making::sample;

/// The application of every seed is one that no cause refuses.
pub fn app_is_accepted()
    ensures { (seed : ℕ) → IsAccepted (sample_app seed) }
{}

/// The script of every seed is one that no cause refuses, and no turn of it has two events.
pub fn script_is_accepted()
    ensures facts { (seed : ℕ) → Facts (sample_script seed) }
    ensures single { (seed turn : ℕ) → count_by (is_of turn) (sample_script seed).events ≤ 1 }
{}
