//! A law about the definitions of an audit. Nothing here is executed.
ghost use Rattle.std.specs.Prelude.{ℕ, List, None, Some, ◌≡◌};
ghost use Rattle.trace_audit.specs.declared.judgement.Judgement.{Judgement};
ghost use Rattle.trace_audit.specs.Judgements.{IsFirstCause, HasNoCause, IsJudgement, first_cause};

/// A text has one judgement. It has at most one first line with a cause, and that line has one
/// cause: `first_cause` gives them.
pub fn a_text_has_one_answer()
    ensures judgement { (text : List ℕ) (v w : Judgement) → IsJudgement text v →
        IsJudgement text w → v ≡ w }
    ensures cause { (lines : List (List ℕ)) (a b n m : ℕ) → IsFirstCause lines a n →
        IsFirstCause lines b m → (a ≡ b) × (n ≡ m) }
    ensures fine { (lines : List (List ℕ)) (a n : ℕ) → HasNoCause lines → IsFirstCause lines a n →
        ⊥ }
    ensures first { (lines : List (List ℕ)) (a n : ℕ) → IsFirstCause lines a n →
        first_cause 1 lines ≡ Some (a, n) }
    ensures none { (lines : List (List ℕ)) → HasNoCause lines → first_cause 1 lines ≡ None }
{}
