//! The words of a line.
ghost use Rattle.std.specs.Prelude.{ℕ, ◌≡◌, ◌<◌, ◌≤◌, ◌^◌, true, Some, decimal};
ghost use Rattle.trace_text.specs.Text.{hex};
ghost use Rattle.trace_audit.specs.Texts.{plain_number};
ghost use Rattle.trace_audit.specs.Fields.{is_hex};

/// A number below 2^64 reads back from its decimal digits. The low 32 bits of any number are
/// written as eight hexadecimal digits.
pub fn words_are_read()
    ensures numbers { (n max : ℕ) → n < 2 ^ 64 → n ≤ max → plain_number max (decimal n) ≡ Some n }
    ensures digits { (n : ℕ) → is_hex 8 (hex n) ≡ true }
{}
