//! What the listing of an image says of its tasks holds of the board. Nothing runs here.

ghost use Rattle.std.specs.Prelude.{ℕ, Contains};
ghost use Rattle.image_format.specs.Facts.{Facts};
ghost use Rattle.image_format.specs.Loners.{loners};
ghost use Rattle.image_format.specs.ImageData.{ImageData};
ghost use Rattle.board_model.specs.Loners.{IsLoner};
ghost use Rattle.board_core.specs.Opened.{setup_of_image};

/// A task that the listing of an image names as a loner is one on the board: none of its regions is
/// a device's, and none shares a byte with a region of another task.
pub fn listed_loners_share_nothing()
    ensures { (p : ImageData) (i : ℕ) → Facts p → Contains (loners p) i →
        IsLoner (setup_of_image p) i }
{}
