//! Files and a sink, as the program sees them.
ghost use Rattle.std.specs.Prelude.{◌≡◌, ◌≢◌, ℕ, ◌≤◌, List, OnErr};
ghost use Rattle.std.specs.Io.KnownBytes.{Keeps};
ghost use Rattle.outside_io.specs.Seen.{FilesSeen, SinkSeen};
ghost use Rattle.outside_io.specs.Outside.{WhereSeen, HasCause, short_name, Reads, Gives, Puts, Pushes};

/// A read, a put or a push failed.
#[derive(Clone, Copy, Debug, PartialEq, Eq)]
pub struct Failed;

/// Files by name. Their counts never fall.
pub trait Files {
    /// What it shows of itself.
    ghost seen: { Self → FilesSeen };

    /// Fills the front of the buffer with bytes from a position on, and returns how many: 0 only at
    /// the end of the contents or if the buffer has no room. Fails only if it counts a failed read.
    fn read(&mut self, name: &str, at: u64, buf: &mut [u8]) -> Result<usize, Failed>
        ensures bytes { Reads ((seen self.old).contents name.now) at buf.new result }
        ensures count { Gives ((seen self.old).given) ((seen self.new).given) result }
        ensures grown { (seen self.old).given ≤ (seen self.new).given }
        ensures cause { HasCause ((seen self.old).read_faults) ((seen self.new).read_faults)
            result }
        ensures named { OnErr result (WhereSeen ((seen self.new).last_failing)
            (λ n. n ≡ short_name name.now)) }
        ensures contents { (seen self.new).contents ≡ (seen self.old).contents }
        ensures puts { (seen self.new).put_faults ≡ (seen self.old).put_faults };

    /// Replaces the contents under a name. Fails only if it counts a failed put, and then leaves
    /// the old contents. The contents under other names stay.
    fn put(&mut self, name: &str, bytes: &[u8]) -> Result<(), Failed>
        ensures bytes { Puts ((seen self.old).contents name.now) ((seen self.new).contents name.now)
            bytes.now result }
        ensures others { (other : List ℕ) → other ≢ name.now →
            (seen self.new).contents other ≡ (seen self.old).contents other }
        ensures cause { HasCause ((seen self.old).put_faults) ((seen self.new).put_faults) result }
        ensures named { OnErr result (WhereSeen ((seen self.new).last_failing)
            (λ n. n ≡ short_name name.now)) }
        ensures count { (seen self.new).given ≡ (seen self.old).given }
        ensures reads { (seen self.new).read_faults ≡ (seen self.old).read_faults };
}

/// Takes pieces in order.
pub trait Sink {
    /// What it shows of itself.
    ghost seen: { Self → SinkSeen };

    /// Appends the whole piece. Or it fails, counts the failure, and has appended a front of the
    /// piece.
    fn push(&mut self, piece: &[u8]) -> Result<(), Failed>
        ensures bytes { Pushes ((seen self.old).written) ((seen self.new).written) piece.now
            result }
        ensures cause { HasCause ((seen self.old).faults) ((seen self.new).faults) result };

    /// Passes on the bytes that are buffered; nothing is appended. Fails only if it counts a fault.
    fn flush(&mut self) -> Result<(), Failed>
        ensures written { Keeps ((seen self.old).written) ((seen self.new).written) }
        ensures cause { HasCause ((seen self.old).faults) ((seen self.new).faults) result };
}
