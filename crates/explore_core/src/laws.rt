//! Laws of schedules and of what is asked of them. Nothing runs here.
ghost use Rattle.std.specs.Prelude.{◌≡◌, ◌≤◌, ◌+◌, ℕ, List, [], ◌∷◌, length, Ok};
ghost use Rattle.std.specs.List.Sorted.{IsPermutation};
ghost use Rattle.task_table.specs.model.State.{State};
ghost use Rattle.task_table.specs.model.Sane.{Sane, IsCounted};
ghost use Rattle.board_model.specs.declared.outcomes.Level.{Level as NoteLevel};
ghost use Rattle.board_model.specs.Alike.{reduced};
ghost use Rattle.board_model.specs.Run.{run};
ghost use Rattle.board_model.specs.Script.{Scenario, start_of};
ghost use Rattle.explore_core.specs.Ahead.{AreSameBefore};
ghost use Rattle.explore_core.specs.Answers.{Asking, in_order};
ghost use Rattle.snapshot.specs.Loaded.{sites};
ghost use Rattle.snapshot.specs.Saved.{SpellsState};
ghost use Rattle.run_question.specs.declared.asked.Property.{Property as Asked};
ghost use Rattle.run_question.specs.Questions.{Question};
ghost use Rattle.run_question.specs.Reading.{question_or_fault};
ghost use Rattle.explore_core.specs.Asked.{broken_in};
ghost use Rattle.explore_core.specs.Clean.{AreClean, IsClean};
ghost use Rattle.explore_core.specs.Fine.{IsFine};
ghost use Rattle.explore_core.specs.Kept.{broken_from, broken_kept};
ghost use Rattle.explore_core.specs.Over.{AreSameFrom};
ghost use Rattle.explore_core.specs.Schedules.{Arrival, Schedule, how_many, scheduled, schedules};
ghost use Rattle.explore_core.specs.Walked.{Placed};

/// A question that is read has an event in each offer and an offer in each arrival, ranges that
/// are not empty, and few enough of all; and its events are ones that a board takes.
pub fn questions_that_are_read_are_fine()
    ensures { (bytes : List ℕ) (q : Question) → question_or_fault bytes ≡ Ok q → IsFine q }
{}

/// There are as many schedules as the ways of each arrival multiplied make.
#[tactic(auto, using(crate::proofs::Counting::schedules_counted))]
pub fn schedules_are_counted()
    ensures { (arrivals : List Arrival) → length (schedules arrivals) ≡ how_many arrivals }
{}

/// Without arrivals there is one schedule, and its run is that of the script.
#[tactic(auto, unfolding(crate::specs::Schedules::schedules))]
pub fn no_arrival_leaves_the_run_as_it_is()
    ensures one { schedules [] ≡ [] ∷ [] }
    ensures run { (x : Scenario) → scheduled x [] ≡ x }
{}

/// The schedules in their order are those of the product: each as often, and no other.
#[tactic(auto, using(crate::proofs::EachOnce::each_once))]
pub fn each_schedule_has_one_course()
    ensures { (a : Asking) → IsPermutation (in_order a) (schedules a.question.arrivals) }
{}

/// A number for each property, kept from turn to turn, is enough to tell in which turn a run breaks
/// it: what is kept at the start, as the run goes on, finds what is said of the whole run.
#[tactic(auto, using(crate::proofs::Enough::enough))]
pub fn what_is_kept_is_enough()
    ensures { (p : Asked) (x : Scenario) (limit : ℕ) → Sane x.setup (start_of x) →
        broken_in p x limit ≡ broken_kept p x limit }
{}

/// What is still to come decides nothing yet. Take two schedules in which each arrival comes in the
/// same way, or is still to come in both before a turn. Up to there they have one run.
#[tactic(auto, using(crate::proofs::Ahead::one_run))]
pub fn what_is_to_come_decides_nothing_yet()
    ensures { (level : NoteLevel) (x : Scenario) (one other : Schedule) (turn n : ℕ) (s : State) →
        Sane x.setup s → s.turn + n ≤ turn → AreSameBefore turn one other →
        run level (scheduled x other) n s ≡ run level (scheduled x one) n s }
{}

/// What is over decides nothing more. Take two schedules in which each arrival comes in the same
/// way, or is over before a turn in one and does not come in the other. From there on they break
/// each property in the same turn.
#[tactic(auto, using(crate::proofs::SameBreaks::over_breaks))]
pub fn what_is_over_decides_nothing_more()
    ensures { (p : Asked) (x : Scenario) (one other : Schedule) (turn n kept : ℕ) (s : State) →
        Sane x.setup s → turn ≤ s.turn → AreSameFrom turn one other →
        broken_from p (scheduled x one) n kept s ≡ broken_from p (scheduled x other) n kept s }
{}

/// In which turn a run breaks a property depends on births only modulo 64. So a state is clean
/// where each state that its bytes spell is: no run from there breaks a property that is looked
/// for, however the arrivals come that are still to come.
pub fn a_clean_state_is_clean_for_each_state_of_its_bytes()
    ensures broken { (p : Asked) (x : Scenario) (n kept : ℕ) (s : State) → Sane x.setup s →
        broken_from p x n kept (reduced s) ≡ broken_from p x n kept s }
    ensures clean { (a : Asking) (live : List (ℕ × Asked)) (pending : List Placed) (kept : List ℕ)
        (s : State) → Sane a.scenario.setup s → IsClean a live pending kept (reduced s) →
        IsClean a live pending kept s }
    ensures spelled { (a : Asking) (live : List (ℕ × Asked)) (pending : List Placed)
        (kept bytes : List ℕ) (s : State) → Sane a.scenario.setup s → IsCounted s →
        sites s.devices ≡ sites a.scenario.devices → SpellsState a.scenario.setup (reduced s) bytes
        → AreClean a live pending kept bytes → IsClean a live pending kept s }
{}
