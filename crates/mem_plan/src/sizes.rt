//! Sizes and their sum.

ghost use Rattle.std.specs.Prelude.{◌≡◌, ◌≤◌, ◌-◌, ◌^◌, map, min, All, IfOk};
ghost use Rattle.mem_plan.specs.Sizes.{rounded, total};

use std::alloc::{AllocError, Global};

/// A size of at most 2^20 bytes, rounded up to a power of two of at least 256: the bytes that its
/// region takes.
pub fn rounded(size: u32) -> u32
    requires { size ≤ 1048576 }
    ensures { result ≡ rounded size }
{
    let mut power = 256;
    for i in 0..12u32 {
        if size <= power {
            return power;
        }
        power *= 2;
    }
    power
}

pub(crate) fn rounded_all(alloc: Global, sizes: &[u32]) -> Result<Vec<u32>, AllocError>
    requires { All (λ s. s ≤ 1048576) sizes.now }
    ensures { IfOk result (λ v. v.items ≡ map rounded sizes.now) }
{
    let mut out = Vec::new(alloc);
    for i in 0..sizes.len() {
        out.push(rounded(sizes[i]))?;
    }
    Ok(out)
}

/// The sum of the sizes in bytes, or the largest number of 64 bits if the sum is above it.
pub(crate) fn needed_of(rounded: &[u32]) -> u64
    ensures { result ≡ min (total rounded.now) (2 ^ 64 - 1) }
{
    let mut sum = 0u64;
    for size in rounded {
        sum = sum.saturating_add(u64::from(*size));
    }
    sum
}
