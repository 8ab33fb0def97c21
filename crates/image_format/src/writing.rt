//! Writes an image in its one spelling in the second form.

ghost use Rattle.std.specs.Prelude.{◌≡◌, ◌≤◌, ◌++◌, ◌∷◌, [], All, IfOk, Ok};
ghost use Rattle.std.specs.Result.{OnOk};
ghost use Rattle.std.specs.List.{flat_map};
ghost use Rattle.image_format.specs.declared.records.ImageForm.TheVariants.{Second};
ghost use Rattle.image_format.specs.Records.{bytes_of, half_bytes, header_bytes_in, line_bytes, num_bytes, region_bytes, task_bytes};
ghost use Rattle.image_format.specs.Images.{image_data, records_in};
ghost use Rattle.image_format.specs.ImageData.{Spells, image_or_fault, spelling};

use crate::image::Image;
use crate::records::{Header, LineRecord, RegionRecord, TaskRecord};
use std::alloc::AllocError;

fn push_half(out: &mut Vec<u8>, n: u16) -> Result<(), AllocError>
    ensures { OnOk result (out.new.items ≡ out.old.items ++ half_bytes n) }
{
    out.extend_from_slice(&[(n % 256) as u8, (n / 256) as u8])
}

fn push_num(out: &mut Vec<u8>, n: u32) -> Result<(), AllocError>
    ensures { OnOk result (out.new.items ≡ out.old.items ++ num_bytes n) }
{
    out.extend_from_slice(&[
        (n % 256) as u8,
        (n / 256 % 256) as u8,
        (n / 65536 % 256) as u8,
        (n / 16777216) as u8,
    ])
}

fn push_four(out: &mut Vec<u8>, a: u8, b: u8, c: u8, d: u8) -> Result<(), AllocError>
    ensures { OnOk result (out.new.items ≡ out.old.items ++ (a ∷ b ∷ c ∷ d ∷ [])) }
{
    out.extend_from_slice(&[a, b, c, d])
}

fn push_counts(out: &mut Vec<u8>, h: &Header) -> Result<(), AllocError>
    ensures { OnOk result (out.new.items ≡ out.old.items
        ++ (half_bytes h.now.tasks ++ half_bytes h.now.lines ++ half_bytes h.now.regions
        ++ half_bytes h.now.zero)) }
{
    push_half(out, h.tasks)?;
    push_half(out, h.lines)?;
    push_half(out, h.regions)?;
    push_half(out, h.zero)
}

fn push_sizes(out: &mut Vec<u8>, h: &Header) -> Result<(), AllocError>
    ensures { OnOk result (out.new.items ≡ out.old.items
        ++ (num_bytes h.now.flash ++ num_bytes h.now.ram ++ num_bytes h.now.bits
        ++ num_bytes h.now.names)) }
{
    push_num(out, h.flash)?;
    push_num(out, h.ram)?;
    push_num(out, h.bits)?;
    push_num(out, h.names)
}

#[tactic(auto, unfolding(crate::specs::Records::header_bytes_in))]
fn push_header(out: &mut Vec<u8>, h: &Header) -> Result<(), AllocError>
    ensures { OnOk result (out.new.items ≡ out.old.items ++ header_bytes_in Second h.now) }
{
    push_four(out, 72, 66, 73, 50)?;
    push_counts(out, h)?;
    push_sizes(out, h)
}

fn push_task(out: &mut Vec<u8>, t: &TaskRecord) -> Result<(), AllocError>
    ensures { OnOk result (out.new.items ≡ out.old.items ++ task_bytes t.now) }
{
    push_four(out, t.priority, t.flags, t.regions, t.names)?;
    push_num(out, t.entry)?;
    push_num(out, t.sp)
}

fn push_region(out: &mut Vec<u8>, r: &RegionRecord) -> Result<(), AllocError>
    ensures { OnOk result (out.new.items ≡ out.old.items ++ region_bytes r.now) }
{
    push_num(out, r.base)?;
    push_num(out, r.size)?;
    push_num(out, r.rights)
}

fn push_line(out: &mut Vec<u8>, l: &LineRecord) -> Result<(), AllocError>
    requires { l.now.device ≤ 8 }
    ensures { OnOk result (out.new.items ≡ out.old.items ++ line_bytes Second l.now) }
{
    out.extend_from_slice(&[l.line, l.device as u8])?;
    push_half(out, l.task)?;
    push_num(out, l.bits)
}

fn push_tasks(out: &mut Vec<u8>, tasks: &[TaskRecord]) -> Result<(), AllocError>
    ensures { OnOk result (out.new.items ≡ out.old.items ++ flat_map task_bytes tasks.now) }
{
    for t in tasks {
        push_task(out, t)?;
    }
    Ok(())
}

fn push_regions(out: &mut Vec<u8>, regions: &[RegionRecord]) -> Result<(), AllocError>
    ensures { OnOk result (out.new.items ≡ out.old.items ++ flat_map region_bytes regions.now) }
{
    for r in regions {
        push_region(out, r)?;
    }
    Ok(())
}

fn push_lines(out: &mut Vec<u8>, lines: &[LineRecord]) -> Result<(), AllocError>
    requires { All (λ l. l.device ≤ 8) lines.now }
    ensures { OnOk result (out.new.items ≡ out.old.items
        ++ flat_map (line_bytes Second) lines.now) }
{
    for l in lines {
        push_line(out, l)?;
    }
    Ok(())
}

fn bytes_of(image: &Image) -> Result<Vec<u8>, AllocError>
    ensures { IfOk result (λ v. v.items ≡ bytes_of (records_in image.now)) }
{
    let mut out = Vec::new(*image.flash.allocator());
    push_header(&mut out, &image.header)?;
    push_tasks(&mut out, image.tasks.as_slice())?;
    push_regions(&mut out, image.regions.as_slice())?;
    push_lines(&mut out, image.lines.as_slice())?;
    out.extend_from_slice(image.names.as_slice())?;
    out.extend_from_slice(image.flash.as_slice())?;
    Ok(out)
}

impl Image {
    /// The one spelling of the image in the second form, as docs/FORMATS.md, Image, has it. Reading
    /// it gives the same image.
    pub fn write(&self) -> Result<Vec<u8>, AllocError>
        ensures exact { IfOk result (λ v. v.items ≡ spelling (image_data self.now)) }
        ensures spells { IfOk result (λ v. Spells (image_data self.now) v.items) }
        ensures reads_back { IfOk result (λ v. image_or_fault v.items ≡ Ok (image_data self.now)) }
    {
        bytes_of(self)
    }
}
