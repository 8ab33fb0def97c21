//! The first region of a board that passes a test.
ghost use Rattle.std.specs.Prelude.{◌≡◌, Bool, true, find, IfSome};
ghost use Rattle.region_check.specs.declared.Region.{Region as Described};
ghost use Rattle.task_table.specs.model.State.{State};
ghost use Rattle.board_model.specs.Script.{Scenario};
ghost use Rattle.board_core.specs.Stands.{Stands};
ghost use Rattle.board_core.specs.Data.{boxed};
ghost use Rattle.board_run.specs.MemoryText.{regions_of};

use board_core::Board;
use region_check::Region;

/// A test for the regions that are looked for.
pub trait RegionTest {
    /// Whether a region passes.
    ghost holds: { Self → Described → Bool };

    fn passes(&self, region: &Region) -> bool
        ensures { result ≡ holds self.now region.now };
}

// The first of these regions that passes.
fn region_in<T: RegionTest>(regions: &[Region], test: &T) -> Option<Region>
    ensures found { result ≡ find (T.holds test.now) regions.now }
    ensures holds { IfSome result (λ r. T.holds test.now r ≡ true) }
{
    for region in regions {
        if test.passes(region) {
            return Some(*region);
        }
    }
    None
}

/// The first region that passes, with the tasks in their order.
pub fn first_region<T: RegionTest>(board: &Board, test: &T) -> Option<Region>
    ensures holds { IfSome result (λ r. T.holds test.now r ≡ true) }
    ensures found { (x : Scenario) (s : State) → Stands (boxed shown) x board.now s →
        result ≡ find (T.holds test.now) (regions_of x.setup) }
{
    for i in 0..board.task_count() {
        let found = region_in(board.regions(i), test);
        if found.is_some() {
            return found;
        }
    }
    None
}
