//! Slices, as a task passes them in registers.

ghost use Rattle.std.specs.Prelude.{◌≡◌};
ghost use Rattle.task_table.specs.model.Reading.{is_valid};

use kernel_abi::Range;

/// Whether a slice ends inside the address space.
pub(crate) fn is_valid(base: u32, len: u32) -> bool
    ensures { result ≡ is_valid record { base = base; len = len } }
{
    Range::of(base, u64::from(len)).is_some()
}
