//! The parts of an image at their places in the bytes.

ghost use Rattle.std.specs.Prelude.{◌≡◌, ◌≤◌, ◌+◌, ◌*◌, ◌<◌, ◌^◌, length, IfOk};
ghost use Rattle.image_format.specs.declared.records.ImageForm.TheVariants.{First, Second};
ghost use Rattle.image_format.specs.Records.{half, header_at, line_at, lines_at, num, records_at, region_at, regions_at, task_at, tasks_at, total};
ghost use Rattle.image_format.specs.Steps.{header_size};

use crate::places::{header_size, lines_place, names_place, regions_place};
use crate::records::{Header, ImageForm, LineRecord, RegionRecord, TaskRecord};
use std::alloc::{AllocError, Global};

fn u16_at(bytes: &[u8], at: usize) -> u16
    requires { at + 2 ≤ length bytes.now }
    ensures { result ≡ half bytes.now at }
{
    u16::from(bytes[at]) + 256 * u16::from(bytes[at + 1])
}

pub(crate) fn u32_at(bytes: &[u8], at: usize) -> u32
    requires { at + 4 ≤ length bytes.now }
    ensures { result ≡ num bytes.now at }
{
    u32::from(bytes[at])
        + 256 * u32::from(bytes[at + 1])
        + 65536 * u32::from(bytes[at + 2])
        + 16777216 * u32::from(bytes[at + 3])
}

fn first_header(bytes: &[u8]) -> Header
    requires { 20 ≤ length bytes.now }
    ensures { result ≡ header_at First bytes.now }
{
    Header {
        form: ImageForm::First,
        tasks: u16::from(bytes[4]),
        lines: u16::from(bytes[5]),
        regions: u16_at(bytes, 6),
        zero: 0,
        flash: u32_at(bytes, 8),
        ram: u32_at(bytes, 12),
        bits: u32_at(bytes, 16),
        names: 0,
    }
}

fn second_header(bytes: &[u8]) -> Header
    requires { 28 ≤ length bytes.now }
    ensures { result ≡ header_at Second bytes.now }
{
    Header {
        form: ImageForm::Second,
        tasks: u16_at(bytes, 4),
        lines: u16_at(bytes, 6),
        regions: u16_at(bytes, 8),
        zero: u16_at(bytes, 10),
        flash: u32_at(bytes, 12),
        ram: u32_at(bytes, 16),
        bits: u32_at(bytes, 20),
        names: u32_at(bytes, 24),
    }
}

pub(crate) fn header_at(form: ImageForm, bytes: &[u8]) -> Header
    requires { header_size form ≤ length bytes.now }
    ensures { result ≡ header_at form bytes.now }
{
    match form {
        ImageForm::First => first_header(bytes),
        ImageForm::Second => second_header(bytes),
    }
}

fn task_at(bytes: &[u8]) -> TaskRecord
    requires { 12 ≤ length bytes.now }
    ensures { result ≡ task_at bytes.now }
{
    TaskRecord {
        priority: bytes[0],
        flags: bytes[1],
        regions: bytes[2],
        names: bytes[3],
        entry: u32_at(bytes, 4),
        sp: u32_at(bytes, 8),
    }
}

fn region_at(bytes: &[u8]) -> RegionRecord
    requires { 12 ≤ length bytes.now }
    ensures { result ≡ region_at bytes.now }
{
    RegionRecord {
        base: u32_at(bytes, 0),
        size: u32_at(bytes, 4),
        rights: u32_at(bytes, 8),
    }
}

fn first_line(bytes: &[u8]) -> LineRecord
    requires { 8 ≤ length bytes.now }
    ensures { result ≡ line_at First bytes.now }
{
    LineRecord {
        line: bytes[0],
        task: u16::from(bytes[1]),
        device: u16_at(bytes, 2),
        bits: u32_at(bytes, 4),
    }
}

fn second_line(bytes: &[u8]) -> LineRecord
    requires { 8 ≤ length bytes.now }
    ensures { result ≡ line_at Second bytes.now }
{
    LineRecord {
        line: bytes[0],
        task: u16_at(bytes, 2),
        device: u16::from(bytes[1]),
        bits: u32_at(bytes, 4),
    }
}

fn line_at(form: ImageForm, bytes: &[u8]) -> LineRecord
    requires { 8 ≤ length bytes.now }
    ensures { result ≡ line_at form bytes.now }
{
    match form {
        ImageForm::First => first_line(bytes),
        ImageForm::Second => second_line(bytes),
    }
}

fn tasks_of(alloc: Global, n: usize, bytes: &[u8]) -> Result<Vec<TaskRecord>, AllocError>
    requires few { n < 2 ^ 16 }
    requires long { 12 * n ≤ length bytes.now }
    ensures items { IfOk result (λ v. v.items ≡ tasks_at n bytes.now) }
    ensures len { IfOk result (λ v. length v.items ≡ n) }
{
    let mut tasks = Vec::new(alloc);
    let mut rest = bytes;
    for i in 0..n {
        tasks.push(task_at(rest))?;
        let (_here, more) = rest.split_at(12);
        rest = more;
    }
    Ok(tasks)
}

fn regions_of(alloc: Global, n: usize, bytes: &[u8]) -> Result<Vec<RegionRecord>, AllocError>
    requires few { n < 2 ^ 16 }
    requires long { 12 * n ≤ length bytes.now }
    ensures items { IfOk result (λ v. v.items ≡ regions_at n bytes.now) }
    ensures len { IfOk result (λ v. length v.items ≡ n) }
{
    let mut regions = Vec::new(alloc);
    let mut rest = bytes;
    for i in 0..n {
        regions.push(region_at(rest))?;
        let (_here, more) = rest.split_at(12);
        rest = more;
    }
    Ok(regions)
}

fn lines_of(
    alloc: Global,
    form: ImageForm,
    n: usize,
    bytes: &[u8],
) -> Result<Vec<LineRecord>, AllocError>
    requires few { n < 2 ^ 16 }
    requires long { 8 * n ≤ length bytes.now }
    ensures items { IfOk result (λ v. v.items ≡ lines_at form n bytes.now) }
    ensures len { IfOk result (λ v. length v.items ≡ n) }
{
    let mut lines = Vec::new(alloc);
    let mut rest = bytes;
    for i in 0..n {
        lines.push(line_at(form, rest))?;
        let (_here, more) = rest.split_at(8);
        rest = more;
    }
    Ok(lines)
}

/// The parts of a file.
#[derive(Drop)]
pub(crate) struct Parts {
    pub(crate) header: Header,
    pub(crate) tasks: Vec<TaskRecord>,
    pub(crate) regions: Vec<RegionRecord>,
    pub(crate) lines: Vec<LineRecord>,
    pub(crate) names: Vec<u8>,
    pub(crate) flash: Vec<u8>,
}

pub(crate) fn parts_of(alloc: Global, header: Header, bytes: &[u8]) -> Result<Parts, AllocError>
    requires long { total header ≡ length bytes.now }
    ensures header { IfOk result (λ p. p.header ≡ header) }
    ensures parts { IfOk result (λ p. record {
      header = p.header;
      tasks = p.tasks.items;
      regions = p.regions.items;
      lines = p.lines.items;
      names = p.names.items;
      flash = p.flash.items;
    } ≡ records_at header bytes.now) }
    ensures tasks { IfOk result (λ p. length p.tasks.items ≡ header.tasks) }
    ensures regions { IfOk result (λ p. length p.regions.items ≡ header.regions) }
    ensures lines { IfOk result (λ p. length p.lines.items ≡ header.lines) }
    ensures names { IfOk result (λ p. length p.names.items ≡ header.names) }
    ensures flash { IfOk result (λ p. length p.flash.items ≡ header.flash) }
{
    let behind_header = &bytes[header_size(header.form) as usize..];
    let behind_tasks = &bytes[regions_place(&header) as usize..];
    let behind_regions = &bytes[lines_place(&header) as usize..];
    let behind_lines = &bytes[names_place(&header) as usize..];
    let (names, flash) = behind_lines.split_at(header.names as usize);
    Ok(Parts {
        header,
        tasks: tasks_of(alloc, usize::from(header.tasks), behind_header)?,
        regions: regions_of(alloc, usize::from(header.regions), behind_tasks)?,
        lines: lines_of(
            alloc,
            header.form,
            usize::from(header.lines),
            behind_regions,
        )?,
        names: names.to_vec(alloc)?,
        flash: flash.to_vec(alloc)?,
    })
}
