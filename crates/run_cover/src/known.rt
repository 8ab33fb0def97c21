//! Finds what is known to be code: executed instructions, the entries of tasks, and the
//! instructions to which known instructions lead directly.
ghost use Rattle.std.specs.Prelude.{◌≡◌, ◌≤◌, ◌<◌, ◌+◌, ◌^◌, ◌&&◌, true, false, length, IfOk};
ghost use Rattle.task_table.specs.model.State.{State};
ghost use Rattle.board_model.specs.Script.{Scenario};
ghost use Rattle.board_core.specs.Stands.{Stands};
ghost use Rattle.board_core.specs.Data.{boxed};
ghost use Rattle.region_check.specs.declared.Right.TheVariants.{Execute};
ghost use Rattle.region_check.specs.Rights.{gives};
ghost use Rattle.run_cover.specs.Counted.{count_of};
ghost use Rattle.run_cover.specs.Known.{HasBegun, HasFollowed, HasLed, HaveBegun, HaveEntered, IsKnown, birth_pc, is_code, is_in_code, is_insn, is_whole, lies_in_code};
ghost use Rattle.run_cover.specs.Marked.{AreMarks, IsMarked, IsNext, IsUnmarked, known_of, work};
ghost use Rattle.run_cover.specs.Places.{is_place};

use crate::counts::PlaceCounts;
use crate::places::{PLACES, address_of, place_of};
use crate::ways::{half_at, is_wide, stands_at, ways_at};
use board_core::Board;
use board_run::{RegionTest, first_region};
use region_check::Region;
use std::alloc::{AllocError, Global};

/// A test of regions: whether a task may execute the byte at an address in it.
#[derive(Drop)]
struct CodeAround {
    addr: u32,
}

impl RegionTest for CodeAround {
    ghost holds = { λ t r. gives Execute t.addr r };

    fn passes(&self, region: &Region) -> bool {
        region.base <= self.addr && self.addr - region.base < region.size && region.rights.execute
    }
}

// Whether some task may execute the byte at an address.
fn is_in_code(board: &Board, addr: u32) -> bool
    ensures { (x : Scenario) (s : State) → Stands (boxed shown) x board.now s →
        result ≡ is_in_code x.setup addr }
{
    first_region(board, &CodeAround { addr }).is_some()
}

// Whether the second halfword of the instruction at an address may be executed too, if it has one.
fn is_whole(board: &Board, addr: u32) -> bool
    requires { addr + 2 < 2 ^ 32 }
    ensures { (x : Scenario) (s : State) → Stands (boxed shown) x board.now s →
        result ≡ is_whole x.setup s.memory addr }
{
    !is_wide(half_at(board, addr)) || is_in_code(board, addr + 2)
}

// Whether each halfword of the instruction at an address may be executed.
fn lies_in_code(board: &Board, addr: u32) -> bool
    requires { addr + 2 < 2 ^ 32 }
    ensures { (x : Scenario) (s : State) → Stands (boxed shown) x board.now s →
        result ≡ lies_in_code x.setup s.memory addr }
{
    is_in_code(board, addr) && is_whole(board, addr)
}

// Whether an instruction that is not a halfword of zeros stands at an address.
fn is_insn(board: &Board, addr: u32) -> bool
    requires { addr + 3 < 2 ^ 32 }
    ensures { (x : Scenario) (s : State) → Stands (boxed shown) x board.now s →
        result ≡ is_insn s.memory addr }
{
    half_at(board, addr) != 0 && stands_at(board, addr).is_some()
}

// Whether such an instruction stands at an address, in regions of code.
fn is_insn_in_code(board: &Board, addr: u32) -> bool
    requires { addr + 3 < 2 ^ 32 }
    ensures { (x : Scenario) (s : State) → Stands (boxed shown) x board.now s →
        result ≡ (is_insn s.memory addr && lies_in_code x.setup s.memory addr) }
{
    is_insn(board, addr) && lies_in_code(board, addr)
}

// Whether the address is a place, and such an instruction stands there in regions of code.
fn is_code(board: &Board, addr: u32) -> bool
    ensures code { (x : Scenario) (s : State) → Stands (boxed shown) x board.now s →
        result ≡ is_code x.setup s.memory addr }
    ensures place { result ≡ true → is_place addr ≡ true }
{
    match place_of(addr) {
        None => false,
        Some(_) => is_insn_in_code(board, addr),
    }
}

// The PC at which a task begins at each of its births.
#[tactic(auto, unfolding(crate::specs::Known::birth_pc))]
fn birth_pc(board: &Board, task: usize) -> u32
    ensures { (x : Scenario) (s : State) → Stands (boxed shown) x board.now s →
        result ≡ birth_pc x.setup task }
{
    let entry = board.entry(task);
    entry - entry % 2
}

/// Which places are known, and the known places whose ways are still to follow. Each place is put
/// into `todo` at most once, so it has room for all of them from the start.
#[derive(Drop)]
pub struct Marks {
    pub known: Vec<bool>,
    pub todo: Vec<u32>,
}

impl Marks {
    /// A table in which nothing is known yet.
    ///
    /// # Errors
    ///
    /// Only if memory runs out.
    pub fn open(alloc: Global) -> Result<Marks, AllocError>
        ensures { IfOk result IsUnmarked }
    {
        let known = Vec::from_elem(alloc, false, PLACES)?;
        let todo = Vec::with_capacity(alloc, PLACES)?;
        Ok(Marks { known, todo })
    }

    /// Whether the place at an address is known; false if the address is not a place.
    pub fn has(&self, addr: u32) -> bool
        ensures { result ≡ known_of self.now addr }
    {
        match place_of(addr) {
            None => false,
            Some(k) => k < self.known.len() && self.known[k],
        }
    }

    // Marks a place as known that was not known before.
    fn mark(&mut self, addr: u32)
        requires marks { AreMarks self.old }
        requires place { is_place addr ≡ true }
        requires new { known_of self.old addr ≡ false }
        ensures { IsMarked self.old addr self.new }
    {
        if let Some(k) = place_of(addr) {
            self.known[k] = true;
            self.todo.push_reserved(addr);
        }
    }

    // Marks a place as known if an instruction was executed there.
    fn begin(&mut self, counts: &PlaceCounts, addr: u32)
        requires marks { AreMarks self.old }
        requires place { is_place addr ≡ true }
        ensures { HasBegun (count_of counts.now) self.old addr self.new }
    {
        if counts.at(addr).executed > 0 && !self.has(addr) {
            self.mark(addr);
        }
    }

    // Marks all places where an instruction was executed.
    fn begin_all(&mut self, counts: &PlaceCounts)
        requires { IsUnmarked self.old }
        ensures { HaveBegun (count_of counts.now) self.new }
    {
        for place in 0..PLACES {
            self.begin(counts, address_of(place));
        }
    }

    // Marks the place to which a way leads, if an instruction stands there.
    fn lead(&mut self, board: &Board, way: Option<u32>)
        requires marks { AreMarks self.old }
        ensures marks { AreMarks self.new }
        ensures less { work self.new ≤ work self.old }
        ensures led { (x : Scenario) (s : State) → Stands (boxed shown) x board.now s →
            HasLed x.setup s.memory way self.old self.new }
    {
        let Some(addr) = way else {
            return;
        };
        if !self.has(addr) && is_code(board, addr) {
            self.mark(addr);
        }
    }

    // Marks the entry of each task, if an instruction stands there. It does so for tasks that never
    // ran too: the image or the supervisor may start them.
    fn enter_all(&mut self, board: &Board)
        requires marks { AreMarks self.old }
        ensures marks { AreMarks self.new }
        ensures entered { (x : Scenario) (s : State) → Stands (boxed shown) x board.now s →
            HaveEntered x.setup s.memory (length x.setup.tasks) self.old self.new }
    {
        for task in 0..board.task_count() {
            self.lead(board, Some(birth_pc(board, task)));
        }
    }

    // Follows the ways of a known instruction.
    fn follow(&mut self, board: &Board, counts: &PlaceCounts, addr: u32)
        requires marks { AreMarks self.old }
        requires known { known_of self.old addr ≡ true }
        ensures marks { AreMarks self.new }
        ensures less { work self.new ≤ work self.old }
        ensures followed { (x : Scenario) (s : State) → Stands (boxed shown) x board.now s →
            HasFollowed x.setup s.memory (count_of counts.now) addr self.old self.new }
    {
        if !counts.at(addr).leads_on() {
            return;
        }
        let ways = ways_at(board, addr);
        self.lead(board, ways.behind);
        self.lead(board, ways.target);
    }

    // Takes a known place whose ways are still to follow.
    fn next(&mut self) -> Option<u32>
        requires { AreMarks self.old }
        ensures { IsNext self.old result self.new }
    {
        self.todo.pop()
    }

    /// Finds all that is known, after a run was counted.
    pub fn find(&mut self, board: &Board, counts: &PlaceCounts)
        requires { IsUnmarked self.old }
        ensures { (x : Scenario) (s : State) → Stands (boxed shown) x board.now s →
            IsKnown x.setup s.memory (count_of counts.now) (known_of self.new) }
    {
        self.begin_all(counts);
        self.enter_all(board);
        while let Some(addr) = self.next() {
            self.follow(board, counts, addr);
        }
    }
}
