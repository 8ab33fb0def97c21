//! Sets of tasks, as sets of their places in the order of the tasks, or of their indices. Bit p %
//! 32 of word p / 32 says whether the task at place p is in the set. Bit w of the summary says
//! whether word w has a bit that is set.

ghost use Rattle.std.specs.Prelude.{◌≡◌, length};
ghost use Rattle.task_table.specs.kept.Limits.{task_words};
ghost use Rattle.task_table.specs.kept.TaskSets.{IsSummary};

use crate::limits::TASK_WORDS;

/// Some of the tasks of an application, by their places in its `Order` or by their indices. With
/// the summary each search looks at a fixed number of words, however many there are.
#[derive(Clone, Copy)]
pub struct TaskSet {
    words: [u32; TASK_WORDS],
    summary: u32,
    ghost all_words: { length words ≡ task_words },
    ghost summed: { IsSummary words summary },
}

impl TaskSet {
    ghost use Rattle.std.specs.Prelude.{◌≡◌, ◌≢◌, ◌<◌, ◌+◌, ◌*◌, ℕ, true, false, ◌&&◌, ◌||◌, not, ◌==◌, if◌then◌else◌};
    ghost use Rattle.task_table.specs.kept.Limits.{most_tasks, task_words};
    ghost use Rattle.task_table.specs.kept.TaskSets.{has, IsFirstFrom, IsEmptyOrNot};

    /// No task.
    pub fn empty() -> TaskSet
        ensures { (i : ℕ) → has result.words i ≡ false }
    {
        TaskSet {
            words: [0; TASK_WORDS],
            summary: 0,
        }
    }

    /// Whether the task at a place is in the set.
    pub fn contains(&self, place: usize) -> bool
        ensures { result ≡ has self.now.words place }
    {
        match self.words.get(place / 32) {
            Some(word) => (*word >> (place % 32)) & 1 == 1,
            None => false,
        }
    }

    /// Puts the task at a place into the set.
    #[inline(always)]
    pub fn insert(&mut self, place: usize)
        requires { place < most_tasks }
        ensures { (i : ℕ) → has self.new.words i ≡ ((i == place) || has self.old.words i) }
    {
        self.words[place / 32] |= 1 << (place % 32);
        self.summary |= 1 << (place / 32);
    }

    /// Takes the task at a place out of the set.
    #[inline(always)]
    pub fn remove(&mut self, place: usize)
        requires { place < most_tasks }
        ensures { (i : ℕ) → has self.new.words i ≡ (not (i == place) && has self.old.words i) }
    {
        let left = self.words[place / 32] & !(1 << (place % 32));
        self.words[place / 32] = left;
        if left == 0 {
            self.summary &= !(1 << (place / 32));
        }
    }

    /// Puts the task at a place into the set, or takes it out.
    #[inline(always)]
    pub fn set(&mut self, place: usize, member: bool)
        requires { place < most_tasks }
        ensures { (i : ℕ) → has self.new.words i ≡
            (if i == place then member else has self.old.words i) }
    {
        if member {
            self.insert(place);
        } else {
            self.remove(place);
        }
    }

    /// Whether no task is in the set.
    #[inline(always)]
    pub fn is_empty(&self) -> bool
        ensures { IsEmptyOrNot self.now.words result }
    {
        self.first_from(0).is_none()
    }

    /// The least place at or above this one whose task is in the set, if there is one.
    #[inline(always)]
    pub fn first_from(&self, place: usize) -> Option<usize>
        ensures { IsFirstFrom self.now.words place result }
    {
        let word = place / 32;
        if word >= TASK_WORDS {
            return None;
        }
        match first_bit_from(self.words[word], place % 32) {
            Some(bit) => Some(word * 32 + bit),
            None => self.first_after(word),
        }
    }

    /// The least place of the set in a word after this one, if there is one.
    #[inline(always)]
    fn first_after(&self, word: usize) -> Option<usize>
        requires { word < task_words }
        ensures { IsFirstFrom self.now.words (word * 32 + 32) result }
    {
        match first_bit_from(self.summary, word + 1) {
            None => None,
            Some(later) => Some(later * 32 + lowest_bit(self.words[later])),
        }
    }

    /// Whether both sets have the same tasks.
    #[inline(always)]
    pub fn is_same(&self, other: &TaskSet) -> bool
        ensures same { result ≡ true → (i : ℕ) → has self.now.words i ≡ has other.now.words i }
        ensures other { result ≡ false → self.now ≢ other.now }
    {
        if self.summary != other.summary {
            return false;
        }
        for word in 0..used_words(self.summary) {
            if self.words[word] != other.words[word] {
                return false;
            }
        }
        true
    }
}

ghost use Rattle.std.specs.Prelude.{◌∷◌, [], ◌≢◌, ◌<◌, ℕ, Some, IfSome};
ghost use Rattle.task_table.specs.kept.TaskSets.{IsFirstFrom, IsUsed};

/// The least set bit of a word at or above a position, if there is one.
#[inline(always)]
fn first_bit_from(bits: u32, from: usize) -> Option<usize>
    requires { from < 32 }
    ensures first { IsFirstFrom (bits ∷ []) from result }
    ensures within { IfSome result (λ bit. bit < 32) }
{
    let later = bits & (u32::MAX << from);
    if later == 0 {
        None
    } else {
        Some(later.trailing_zeros() as usize)
    }
}

/// The least set bit of a word that is not 0.
#[inline(always)]
fn lowest_bit(bits: u32) -> usize
    requires { bits ≢ 0 }
    ensures first { IsFirstFrom (bits ∷ []) 0 (Some result) }
    ensures within { result < 32 }
{
    bits.trailing_zeros() as usize
}

/// How many words, from the first one on, may have a set bit, by the summary of the set.
#[inline(always)]
fn used_words(summary: u32) -> usize
    ensures { IsUsed summary result }
{
    (32 - summary.leading_zeros()) as usize
}
