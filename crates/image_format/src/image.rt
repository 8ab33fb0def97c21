//! A sound image.

ghost use Rattle.std.specs.Prelude.{◌≡◌};
ghost use Rattle.image_format.specs.declared.records.ImageForm.TheVariants.{Second};
ghost use Rattle.image_format.specs.Accepted.{Accepted};

use crate::records::{Header, LineRecord, RegionRecord, TaskRecord};

/// An image that no check refuses. `image_data` in the specs gives its contents. It keeps the parts
/// of the second form, whichever form it was read from.
#[derive(Drop)]
pub struct Image {
    pub(crate) header: Header,
    pub(crate) tasks: Vec<TaskRecord>,
    pub(crate) regions: Vec<RegionRecord>,
    pub(crate) lines: Vec<LineRecord>,
    pub(crate) names: Vec<u8>,
    pub(crate) flash: Vec<u8>,
    ghost second: { header.form ≡ Second },
    ghost accepted: { Accepted (record {
      header = header;
      tasks = tasks.items;
      regions = regions.items;
      lines = lines.items;
      names = names.items;
      flash = flash.items;
    }) },
}
