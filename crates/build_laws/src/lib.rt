//! Laws about the definitions of plans, of built images, and of the large sample. Nothing runs
//! here.
#![tactic(auto)]

mod sample;

ghost use Rattle.std.specs.Prelude.{◌≡◌, ℕ, List, ◌+◌, ◌≤◌, ◌<◌};
ghost use Rattle.app_toml.specs.Apps.{AppData};
ghost use Rattle.image_build.specs.Built.{Built};
ghost use Rattle.image_format.specs.ImageData.{ImageData};
ghost use Rattle.mem_plan.specs.Sizes.{total};
ghost use Rattle.build_laws.specs.Filling.{LiesIn};

pub use sample::{board_is_full, build_is_not_refused, sources_are_taken};

/// The regions of a plan leave no gap: every byte of the room that the sizes need lies in a region.
pub fn regions_fill_the_room()
    ensures { (base : ℕ) (sizes : List ℕ) (address : ℕ) → base ≤ address →
        address < base + total sizes → (i : ℕ) × LiesIn base sizes i address }
{}

/// An application and the sources of its tasks have at most one image.
pub fn an_application_has_one_image()
    ensures { (app : AppData) (sources : List (List ℕ)) (image image' : ImageData) →
        Built app sources image → Built app sources image' → image ≡ image' }
{}
