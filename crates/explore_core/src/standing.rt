//! What is kept of a run for a property, from turn to turn.
ghost use Rattle.std.specs.Prelude.{◌≡◌};
ghost use Rattle.explore_core.specs.Asked.{passes};
ghost use Rattle.explore_core.specs.Kept.{owed_on, held_by};

use run_question::Test;

/// What is kept of a property, or that it is broken.
#[derive(Clone, Copy, PartialEq, Eq)]
pub(crate) enum Standing {
    Kept { turns: u32 },
    Broken,
}

pub(crate) fn passes(test: Test, value: u32, number: u32) -> bool
    ensures { result ≡ passes test value number }
{
    match test {
        Test::Is => number == value,
        Test::Above => value < number,
    }
}

/// At a state where a condition holds, or does not: for how many states on end it has.
pub(crate) fn held_by(holds: bool, turns: u32, kept: u32) -> Standing
    ensures { result ≡ held_by holds turns kept }
{
    if !holds {
        Standing::Kept { turns: 0 }
    } else if turns <= kept {
        Standing::Broken
    } else {
        Standing::Kept { turns: kept + 1 }
    }
}

/// By a turn of which the line is told, or is not, and its answer, or is not: in how many turns the
/// answer may still come, where it is owed.
pub(crate) fn owed_on(told: bool, answered: bool, turns: u32, kept: u32) -> Standing
    ensures { result ≡ owed_on told answered turns kept }
{
    if answered {
        return Standing::Kept { turns: 0 };
    }
    if kept > 0 {
        return if kept == 1 {
            Standing::Broken
        } else {
            Standing::Kept { turns: kept - 1 }
        };
    }
    if !told {
        return Standing::Kept { turns: 0 };
    }
    if turns == 0 {
        Standing::Broken
    } else {
        Standing::Kept { turns }
    }
}
