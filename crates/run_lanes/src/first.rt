//! The first of several values that come one after another, and how many came. All memory is
//! allocated beforehand.
ghost use Rattle.std.specs.Prelude.{ℕ, List, [], ◌∷◌, ◌++◌, IfOk, option_to_list, vec_capacity};
ghost use Rattle.run_lanes.specs.First.{IsFirst};

use std::alloc::{AllocError, Global};

/// The first values, and how many came, counted up to 2^64 - 1.
#[derive(Drop)]
pub struct First<T> {
    pub kept: Vec<T>,
    pub all: u64,
}

impl<T: Drop> First<T> {
    /// No values yet, with memory for this many.
    ///
    /// # Errors
    ///
    /// Only if memory runs out.
    pub fn open(alloc: Global, most: usize) -> Result<First<T>, AllocError>
        ensures { IfOk result (λ f. IsFirst most f.kept.items (vec_capacity f.kept) f.all []) }
    {
        let kept = Vec::with_capacity(alloc, most)?;
        Ok(First { kept, all: 0 })
    }

    /// Takes one more value. If there is no memory left for it, it is only counted.
    pub fn push(&mut self, value: T)
        ensures { (most : ℕ) (xs : List T) →
            IsFirst most self.old.kept.items (vec_capacity self.old.kept) self.old.all xs →
            IsFirst most self.new.kept.items (vec_capacity self.new.kept) self.new.all
            (xs ++ value ∷ []) }
    {
        self.all = self.all.saturating_add(1);
        if self.kept.len() < self.kept.capacity() {
            self.kept.push_reserved(value);
        }
    }

    /// Takes one more value, if there is one.
    pub fn push_some(&mut self, value: Option<T>)
        ensures { (most : ℕ) (xs : List T) →
            IsFirst most self.old.kept.items (vec_capacity self.old.kept) self.old.all xs →
            IsFirst most self.new.kept.items (vec_capacity self.new.kept) self.new.all
            (xs ++ option_to_list value) }
    {
        match value {
            Some(value) => self.push(value),
            None => {}
        }
    }
}
