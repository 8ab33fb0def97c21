//! Makes an image from its parts.

ghost use Rattle.std.specs.Prelude.{◌≡◌};
ghost use Rattle.image_format.specs.declared.records.ImageForm.TheVariants.{Second};
ghost use Rattle.image_format.specs.Accepted.{Accepted};
ghost use Rattle.image_format.specs.Images.{image_data};
ghost use Rattle.image_format.specs.ImageData.{ImageData, records_of};

use crate::image::Image;
use crate::records::{Header, LineRecord, RegionRecord, TaskRecord};

impl Image {
    /// The image of these parts, which no check refuses: the records as they lie in a file of the
    /// second form, the regions and the names in the order of the tasks, each name its length and
    /// its bytes, and the bytes of flash.
    pub fn of_parts(
        header: Header,
        tasks: Vec<TaskRecord>,
        regions: Vec<RegionRecord>,
        lines: Vec<LineRecord>,
        names: Vec<u8>,
        flash: Vec<u8>,
    ) -> Image
        requires second { header.form ≡ Second }
        requires accepted { Accepted (record {
          header = header;
          tasks = tasks.items;
          regions = regions.items;
          lines = lines.items;
          names = names.items;
          flash = flash.items;
        }) }
        ensures { (p : ImageData) → records_of Second p ≡ record {
          header = header;
          tasks = tasks.items;
          regions = regions.items;
          lines = lines.items;
          names = names.items;
          flash = flash.items;
        } → image_data result ≡ p }
    {
        Image {
            header,
            tasks,
            regions,
            lines,
            names,
            flash,
        }
    }
}
