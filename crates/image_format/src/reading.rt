//! Reads an image from bytes, or gives the first cause why they are refused.

ghost use Rattle.std.specs.Prelude.{◌≡◌, ◌≤◌, length, IfOk, IfErr, IfSome, Ok, Err, Some, None};
ghost use Rattle.image_format.specs.declared.records.ImageForm.TheVariants.{First, Second};
ghost use Rattle.image_format.specs.Accepted.{Accepted};
ghost use Rattle.image_format.specs.Records.{form_at, header_at, header_in, header_or_fault, records_fault, records_or_fault, sized, total};
ghost use Rattle.image_format.specs.Images.{image_data, records_in, stated};
ghost use Rattle.image_format.specs.ImageData.{ImageData, Sound, Spells, image_or_fault};
ghost use Rattle.image_format.specs.Steps.{field_fault, header_size};

use crate::checks::{check_count, check_fields, check_lines, check_tasks};
use crate::image::Image;
use crate::line_devices::check_line_devices;
use crate::names::check_names;
use crate::parts::{Parts, header_at, parts_of, u32_at};
use crate::places::{header_size, names_place};
use crate::records::{Header, ImageFault, ImageForm};
use crate::regions::{check_entries, check_regions};
use std::alloc::Global;

/// The form with whose letters the bytes begin.
fn form_at(bytes: &[u8]) -> Option<ImageForm>
    requires { 4 ≤ length bytes.now }
    ensures { result ≡ form_at bytes.now }
{
    let letters = u32_at(bytes, 0);
    if letters == 826_884_680 {
        Some(ImageForm::First)
    } else if letters == 843_661_896 {
        Some(ImageForm::Second)
    } else {
        None
    }
}

/// The length of the file in bytes, as its header says it.
fn total(h: &Header) -> usize
    ensures { result ≡ total h.now }
{
    names_place(h) as usize + h.names as usize + h.flash as usize
}

/// The header, if the file has the length that the header says.
fn sized(header: Header, length: usize) -> Result<Header, (u8, u32)>
    requires { total header ≤ 16777216 }
    ensures exact { result ≡ sized header length }
    ensures long { IfOk result (λ h. (h ≡ header) × (total h ≡ length)) }
{
    let total = total(&header);
    if length < total {
        Err((1, length as u32))
    } else if total < length {
        Err((4, total as u32))
    } else {
        Ok(header)
    }
}

/// The header of the form, checked alone and against the file's length.
fn header_in(form: ImageForm, bytes: &[u8]) -> Result<Header, (u8, u32)>
    ensures exact { result ≡ header_in (Some form) bytes.now }
    ensures long { IfOk result (λ h. total h ≡ length bytes.now) }
    ensures fields { IfOk result (λ h. field_fault h ≡ None) }
    ensures plain { IfOk result (λ h. h.form ≡ First → (h.zero ≡ 0) × (h.names ≡ 0)) }
{
    let length = bytes.len();
    if length < header_size(form) as usize {
        return Err((1, length as u32));
    }
    let header = header_at(form, bytes);
    match check_fields(&header) {
        Some(fault) => Err(fault),
        None => sized(header, length),
    }
}

/// The header, checked alone and against the file's length.
fn header_of(bytes: &[u8]) -> Result<Header, (u8, u32)>
    ensures exact { result ≡ header_or_fault bytes.now }
    ensures long { IfOk result (λ h. total h ≡ length bytes.now) }
    ensures fields { IfOk result (λ h. field_fault h ≡ None) }
    ensures plain { IfOk result (λ h. h.form ≡ First → (h.zero ≡ 0) × (h.names ≡ 0)) }
{
    let length = bytes.len();
    if length < 20 {
        return Err((1, length as u32));
    }
    match form_at(bytes) {
        Some(form) => header_in(form, bytes),
        None => Err((2, 0)),
    }
}

fn refused(fault: (u8, u32)) -> ImageFault
    ensures { stated result ≡ Some fault }
{
    ImageFault::Refused {
        cause: fault.0,
        place: fault.1,
    }
}

/// The first refusal of the records.
fn check_records(p: &Parts) -> Option<(u8, u32)>
    requires fields { field_fault p.now.header ≡ None }
    requires tasks { length p.now.tasks.items ≡ p.now.header.tasks }
    requires regions { length p.now.regions.items ≡ p.now.header.regions }
    requires lines { length p.now.lines.items ≡ p.now.header.lines }
    requires names { length p.now.names.items ≡ p.now.header.names }
    ensures { result ≡ records_fault (record {
      header = p.now.header;
      tasks = p.now.tasks.items;
      regions = p.now.regions.items;
      lines = p.now.lines.items;
      names = p.now.names.items;
      flash = p.now.flash.items;
    }) }
{
    let h = &p.header;
    let tasks = p.tasks.as_slice();
    let regions = p.regions.as_slice();
    let each = check_tasks(h, tasks);
    if each.is_some() {
        return each;
    }
    let count = check_count(h, tasks);
    if count.is_some() {
        return count;
    }
    let places = check_regions(h, tasks, regions);
    if places.is_some() {
        return places;
    }
    let entries = check_entries(h, tasks, regions);
    if entries.is_some() {
        return entries;
    }
    let lines = check_lines(h, p.lines.as_slice());
    if lines.is_some() {
        return lines;
    }
    let devices = check_line_devices(h, tasks, regions, p.lines.as_slice());
    if devices.is_some() {
        return devices;
    }
    check_names(h, tasks, p.names.as_slice())
}

/// The parts of the file, in the form that the file has.
fn read_parts(alloc: Global, bytes: &[u8]) -> Result<Parts, ImageFault>
    ensures ok { IfOk result (λ p. records_or_fault bytes.now ≡ Ok (record {
      header = p.header;
      tasks = p.tasks.items;
      regions = p.regions.items;
      lines = p.lines.items;
      names = p.names.items;
      flash = p.flash.items;
    })) }
    ensures accepted { IfOk result (λ p. Accepted (record {
      header = p.header;
      tasks = p.tasks.items;
      regions = p.regions.items;
      lines = p.lines.items;
      names = p.names.items;
      flash = p.flash.items;
    })) }
    ensures plain { IfOk result (λ p. p.header.form ≡ First → (p.header.zero ≡ 0)
        × (p.header.names ≡ 0)) }
    ensures refused { IfErr result (λ e. IfSome (stated e)
        (λ t. records_or_fault bytes.now ≡ Err t)) }
{
    let header = match header_of(bytes) {
        Ok(header) => header,
        Err(fault) => return Err(refused(fault)),
    };
    let parts = match parts_of(alloc, header, bytes) {
        Ok(parts) => parts,
        Err(_) => return Err(ImageFault::Memory),
    };
    match check_records(&parts) {
        Some(fault) => Err(refused(fault)),
        None => Ok(parts),
    }
}

/// The image of accepted parts, which it keeps in the second form.
fn kept(parts: Parts) -> Image
    requires accepted { Accepted (record {
      header = parts.header;
      tasks = parts.tasks.items;
      regions = parts.regions.items;
      lines = parts.lines.items;
      names = parts.names.items;
      flash = parts.flash.items;
    }) }
    requires plain { parts.header.form ≡ First → (parts.header.zero ≡ 0)
        × (parts.header.names ≡ 0) }
    ensures { records_in result ≡ record {
      header = record parts.header { form = Second };
      tasks = parts.tasks.items;
      regions = parts.regions.items;
      lines = parts.lines.items;
      names = parts.names.items;
      flash = parts.flash.items;
    } }
{
    let mut header = parts.header;
    header.form = ImageForm::Second;
    Image {
        header,
        tasks: parts.tasks,
        regions: parts.regions,
        lines: parts.lines,
        names: parts.names,
        flash: parts.flash,
    }
}

impl Image {
    /// The image that the bytes spell in either form. Otherwise the first cause why they are
    /// refused, with its place, in the order of docs/FORMATS.md, Image, or `Memory` if memory ran
    /// out.
    pub fn read(alloc: Global, bytes: &[u8]) -> Result<Image, ImageFault>
        ensures ok { IfOk result (λ i. image_or_fault bytes.now ≡ Ok (image_data i)) }
        ensures refused { IfErr result (λ e.
            IfSome (stated e) (λ t. image_or_fault bytes.now ≡ Err t)) }
        ensures spelled { IfOk result (λ i. Spells (image_data i) bytes.now) }
        ensures sound { IfOk result (λ i. Sound (image_data i)) }
        ensures only { (p : ImageData) → Spells p bytes.now → Sound p
            → image_or_fault bytes.now ≡ Ok p }
    {
        match read_parts(alloc, bytes) {
            Ok(parts) => Ok(kept(parts)),
            Err(fault) => Err(fault),
        }
    }
}
