//! Where the parts of a file lie.

ghost use Rattle.std.specs.Prelude.{◌≡◌, ◌≤◌};
ghost use Rattle.image_format.specs.Steps.{header_size, lines_place, names_place, regions_place};

use crate::records::{Header, ImageForm};

/// The length of the header in bytes, with its letters.
pub(crate) fn header_size(form: ImageForm) -> u32
    ensures value { result ≡ header_size form }
    ensures most { result ≤ 28 }
{
    match form {
        ImageForm::First => 20,
        ImageForm::Second => 28,
    }
}

pub(crate) fn regions_place(h: &Header) -> u32
    ensures { result ≡ regions_place h.now }
{
    header_size(h.form) + 12 * u32::from(h.tasks)
}

pub(crate) fn lines_place(h: &Header) -> u32
    ensures { result ≡ lines_place h.now }
{
    header_size(h.form) + 12 * u32::from(h.tasks) + 12 * u32::from(h.regions)
}

pub(crate) fn names_place(h: &Header) -> u32
    ensures { result ≡ names_place h.now }
{
    header_size(h.form)
        + 12 * u32::from(h.tasks)
        + 12 * u32::from(h.regions)
        + 8 * u32::from(h.lines)
}
