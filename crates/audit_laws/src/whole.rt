//! The text of a run.
ghost use Rattle.std.specs.Prelude.{ℕ, ◌++◌, List, ◌∷◌};
ghost use Rattle.kernel_abi.specs.declared.Note.{Note};
ghost use Rattle.trace_audit.specs.declared.reading.TraceLine.{TraceLine};
ghost use Rattle.trace_audit.specs.declared.reading.TraceLine.TheVariants as line;
ghost use Rattle.trace_audit.specs.Rules.{IsGood};
ghost use Rattle.trace_audit.specs.Texts.{lines_of};
ghost use Rattle.trace_audit.specs.Judgements.{HasNoCause, read_lines};
ghost use Rattle.trace_text.specs.Fit.{AreFit};
ghost use Rattle.audit_laws.specs.Whole.{notes_told, joined, AreInOrder, AreRight, AreGoodSayings, AreLines, AreShort, AreLastLines};
ghost use Rattle.trace_text.specs.Lines.{notes_text};

/// A text is good if it has three parts. First come notes that are in range and right, in turns
/// that do not decrease, and that say good things about calls. Then comes a line of the end. Then
/// come lines that show something, or that say what a task waits for and agree with the notes. No
/// line of such a text has a cause, if no line is too long.
pub fn texts_of_good_notes_are_good()
    ensures good { (notes : List (ℕ × Note)) (texts : List (List ℕ)) (rest : List TraceLine)
        → AreInOrder 0 notes → AreFit notes → AreRight notes → AreGoodSayings (notes_told notes) →
        AreLines texts (line.Ends ∷ rest) → AreLastLines (notes_told notes) rest
        → IsGood (read_lines (notes_text notes ++ joined texts)) }
    ensures fine { (notes : List (ℕ × Note)) (texts : List (List ℕ)) (lines : List TraceLine)
        → AreInOrder 0 notes → AreFit notes → AreRight notes → AreLines texts lines → AreShort texts
        → HasNoCause (lines_of (notes_text notes ++ joined texts)) }
{}
