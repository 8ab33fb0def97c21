//! The lines after the notes.
ghost use Rattle.std.specs.Prelude.{ℕ, ◌<◌, ◌^◌, ◌≡◌, Bool, true, List, length, Option};
ghost use Rattle.kernel_abi.specs.declared.Health.{Health};
ghost use Rattle.kernel_abi.specs.declared.Timer.{Timer};
ghost use Rattle.trace_text.specs.Text.{low_words, high_words};
ghost use Rattle.trace_audit.specs.declared.reading.TraceLine.TheVariants as line;
ghost use Rattle.trace_audit.specs.declared.reading.FinalWait.{FinalWait};
ghost use Rattle.trace_audit.specs.Fields.{is_hex};
ghost use Rattle.trace_text.specs.Fit.{IsFitTimer};
ghost use Rattle.audit_laws.specs.Told.{IsLine};
ghost use Rattle.audit_laws.specs.Ends.{IsHow, end_line, IsFitHealth, IsWaitText, mem_line, row_line};
ghost use Rattle.trace_text.specs.Lines.{task_line};

/// Each line after the notes, with numbers in range, is one line of printable bytes. An audit reads
/// it as what it is: the end of the turns, or what a task waits for, or a line that only shows
/// something (registers, a region, or bytes).
pub fn last_lines_are_read()
    ensures ends { (how : List ℕ) (turns now : ℕ) → IsHow how → turns < 2 ^ 32 → now < 2 ^ 64 →
        IsLine (end_line how turns now) line.Ends }
    ensures tasks { (i generation : ℕ) (health : Health) (text : List ℕ) (waits : FinalWait)
        (posted : ℕ) (timer : Option Timer)
        → i < 2 ^ 32 → generation < 2 ^ 32 → IsFitHealth health → IsWaitText text waits →
        IsFitTimer timer
        → IsLine (task_line i generation health text posted timer) (line.Waits i waits) }
    ensures lows { (registers : List ℕ) → length registers ≡ 8 →
        IsLine (low_words registers) line.Shows }
    ensures highs { (registers : List ℕ) (n z c v : Bool) → length registers ≡ 8 →
        IsLine (high_words registers n z c v) line.Shows }
    ensures mems { (base size : ℕ) → size < 2 ^ 32 → IsLine (mem_line base size) line.Shows }
    ensures rows { (a : ℕ) (digits : List ℕ) → is_hex 32 digits ≡ true →
        IsLine (row_line a digits) line.Shows }
{}
