//! The numbers that a seed gives.

ghost use Rattle.std.specs.Prelude.{◌≡◌, ◌<◌, ◌/◌, ◌%◌};
ghost use Rattle.sample_gen.specs.Draws.{next};

/// The numbers of a seed, one after another.
#[derive(Drop)]
pub(crate) struct Numbers {
    pub(crate) last: u32,
}

impl Numbers {
    /// Draws the next number, below n.
    pub(crate) fn draw(&mut self, n: u32) -> u32
        requires { 0 < n }
        ensures next { self.new.last ≡ next self.old.last }
        ensures drawn { result ≡ self.new.last / 65536 % n }
        ensures below { result < n }
    {
        self.last = self.last.wrapping_mul(1664525).wrapping_add(1013904223);
        self.last / 65536 % n
    }
}
