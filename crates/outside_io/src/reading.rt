//! All contents of a file, up to a limit.
ghost use Rattle.std.specs.Prelude.{◌≡◌, ◌⊎◌, ◌+◌, ◌-◌, ◌^◌, ◌<◌, ◌≤◌, length, IfOk, IsErrOf, Err};
ghost use Rattle.outside_io.specs.Outside.{WhereSeen, Rose, raised, short_name};
ghost use Rattle.outside_io.specs.declared.reading.ReadAll.TheVariants.{Failed as ReadFailed, TooLong, Memory};

use crate::{Failed, Files};
use std::alloc::{AllocError, Global};

/// Why contents were not read.
#[derive(Clone, Copy, Debug, PartialEq, Eq)]
pub enum ReadAll {
    /// A read failed.
    Failed,
    /// There are more bytes than the limit.
    TooLong,
    /// There was no memory for them.
    Memory,
}

impl From<AllocError> for ReadAll {
    ghost from_gives = { λ _ e. e ≡ Memory };

    fn from(_: AllocError) -> Self {
        ReadAll::Memory
    }
}

impl From<Failed> for ReadAll {
    ghost from_gives = { λ _ e. e ≡ ReadFailed };

    fn from(_: Failed) -> Self {
        ReadAll::Failed
    }
}

/// The contents under a name, of at most `limit` bytes. Each pass of its loop reads at least one
/// byte.
pub fn read_all<F: Files>(
    alloc: Global,
    files: &mut F,
    name: &str,
    limit: usize,
) -> Result<Vec<u8>, ReadAll>
    requires { limit < 2 ^ 32 }

    ensures whole { IfOk result (λ v. (length v.items ≤ limit)
        × WhereSeen ((F.seen files.old).contents name.now) (λ all. v.items ≡ all)) }
    ensures counted { IfOk result (λ v. (F.seen files.new).given ≡ raised (F.seen files.old).given
        (length v.items)) }

    ensures failed { IsErrOf result ReadFailed →
        Rose (F.seen files.old).read_faults (F.seen files.new).read_faults }
    ensures named { IsErrOf result ReadFailed →
        WhereSeen (F.seen files.new).last_failing (λ n. n ≡ short_name name.now) }
    ensures too_long { IsErrOf result TooLong →
        raised (F.seen files.old).given (limit + 1) ≤ (F.seen files.new).given }
    ensures long_seen { IsErrOf result TooLong →
        WhereSeen ((F.seen files.old).contents name.now) (λ all. limit < length all) }

    // More than `limit` bytes are refused as too long, unless a read fails or memory runs out.
    ensures refused { WhereSeen ((F.seen files.old).contents name.now)
        (λ all. limit < length all → ¬ Rose (F.seen files.old).read_faults
        (F.seen files.new).read_faults → IsErrOf result TooLong ⊎ IsErrOf result Memory) }

    ensures later { (F.seen files.old).read_faults ≤ (F.seen files.new).read_faults }
    ensures grown { (F.seen files.old).given ≤ (F.seen files.new).given }
    ensures contents { (F.seen files.new).contents ≡ (F.seen files.old).contents }
    ensures puts { (F.seen files.new).put_faults ≡ (F.seen files.old).put_faults }
{
    let mut out = Vec::new(alloc);
    let mut buf = [0u8; 4096];
    'pieces: while out.len() <= limit {
        let count = files.read(name, out.len() as u64, &mut buf)?;
        if count == 0 {
            return Ok(out);
        }
        out.extend_from_slice(&buf[..count])?;
    }
    Err(ReadAll::TooLong)
}
