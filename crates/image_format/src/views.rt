//! Reads the contents of an image.

ghost use Rattle.std.specs.Prelude.{◌≡◌, ◌==◌, ◌≤◌, ◌+◌, ◌<◌, All, length, map, string_bytes, take, true, IfOk};
ghost use Rattle.std.specs.List.{sum_by};
ghost use Rattle.image_format.specs.Facts.{Facts};
ghost use Rattle.image_format.specs.Images.{image_data};
ghost use Rattle.text_lines.specs.Names.{is_name};
ghost use Rattle.image_format.specs.Names.{names_of};
ghost use Rattle.image_format.specs.ImageData.{Sound, device_region, line_in, names_in, region_by, region_of, regions_in, rights_of, task_in};

use crate::image::Image;
use crate::line_devices::own_regions;
use crate::names::{skip_names, split_name};
use crate::records::{RegionRecord, TaskRecord};
use region_check::{Region, Rights};
use std::alloc::{AllocError, Global};

fn rights_of(rights: u32) -> Rights
    ensures { result ≡ rights_of rights }
{
    Rights {
        read: rights % 2 == 1,
        write: rights / 2 % 2 == 1,
        execute: rights / 4 % 2 == 1,
        device: rights / 8 % 2 == 1,
    }
}

fn region_of(r: &RegionRecord) -> Region
    ensures { result ≡ region_of r.now }
{
    Region {
        base: r.base,
        size: r.size,
        rights: rights_of(r.rights),
    }
}

/// The i-th task's record.
#[tactic(auto, using(crate::proofs::Shape::tasks_length))]
fn task_at(image: &Image, i: usize) -> TaskRecord
    requires { i < length (image_data image.now).tasks }
    ensures priority { result.priority ≡ (task_in (image_data image.now) i).priority }
    ensures started { (result.flags == 1) ≡ (task_in (image_data image.now) i).started }
    ensures entry { result.entry ≡ (task_in (image_data image.now) i).entry }
    ensures sp { result.sp ≡ (task_in (image_data image.now) i).sp }
{
    image.tasks[i]
}

/// The i-th task's regions.
fn regions_in(image: &Image, i: usize) -> &[RegionRecord]
    requires { i < length (image_data image.now).tasks }
    ensures { map region_of result.now ≡ regions_in (image_data image.now) i }
{
    own_regions(image.tasks.as_slice(), image.regions.as_slice(), i)
}

fn regions_of(alloc: Global, own: &[RegionRecord]) -> Result<Vec<Region>, AllocError>
    ensures { IfOk result (λ v. v.items ≡ map region_of own.now) }
{
    let mut regions = Vec::new(alloc);
    for r in own {
        regions.push(region_of(r))?;
    }
    Ok(regions)
}

/// The region of a task by its number, which counts from one.
fn region_by(own: &[RegionRecord], number: u16) -> Option<Region>
    ensures { result ≡ region_by (map region_of own.now) number }
{
    if number == 0 {
        return None;
    }
    match own.get(usize::from(number) - 1) {
        Some(region) => Some(region_of(region)),
        None => None,
    }
}

/// How many names the first n tasks have.
fn named(tasks: &[TaskRecord], n: usize) -> usize
    requires few { length tasks.now ≤ 512 }
    requires within { n ≤ length tasks.now }
    ensures { result ≡ sum_by (λ t. t.names) (take n tasks.now) }
{
    let mut sum = 0usize;
    for i in 0..n {
        sum += usize::from(tasks[i].names);
    }
    sum
}

/// A name as a text.
fn text_of(alloc: Global, name: &[u8]) -> Result<String, AllocError>
    requires { is_name name.now ≡ true }
    ensures { IfOk result (λ t. string_bytes t ≡ name.now) }
{
    match str::from_utf8(name) {
        Ok(text) => String::from_str(alloc, text),
        Err(_) => unreachable!(),
    }
}

/// The n names with which some bytes begin, as texts.
fn texts_of(alloc: Global, n: usize, bytes: &[u8]) -> Result<Vec<String>, AllocError>
    requires { All (λ name. is_name name ≡ true) (names_of n bytes.now) }
    ensures { IfOk result (λ v. map string_bytes v.items ≡ names_of n bytes.now) }
{
    let mut texts = Vec::new(alloc);
    let mut rest = bytes;
    for k in 0..n {
        let (name, more) = split_name(rest);
        texts.push(text_of(alloc, name)?)?;
        rest = more;
    }
    Ok(texts)
}

impl Image {
    /// The facts that are true of each image.
    pub fn facts(&self)
        ensures sound { Sound (image_data self.now) }
        ensures facts { Facts (image_data self.now) }
    {}

    /// How many tasks, 1 to 512.
    #[tactic(auto, using(crate::proofs::Shape::tasks_length))]
    pub fn task_count(&self) -> usize
        ensures { result ≡ length (image_data self.now).tasks }
    {
        self.tasks.len()
    }

    /// The i-th task's priority, of which 0 is the highest.
    pub fn priority(&self, i: usize) -> u8
        requires { i < length (image_data self.now).tasks }
        ensures { result ≡ (task_in (image_data self.now) i).priority }
    {
        task_at(self, i).priority
    }

    /// Whether the i-th task runs at the start.
    pub fn is_started(&self, i: usize) -> bool
        requires { i < length (image_data self.now).tasks }
        ensures { result ≡ (task_in (image_data self.now) i).started }
    {
        task_at(self, i).flags == 1
    }

    /// Where the i-th task begins, with bit 0 set.
    pub fn entry(&self, i: usize) -> u32
        requires { i < length (image_data self.now).tasks }
        ensures { result ≡ (task_in (image_data self.now) i).entry }
    {
        task_at(self, i).entry
    }

    /// The i-th task's first stack pointer.
    pub fn sp(&self, i: usize) -> u32
        requires { i < length (image_data self.now).tasks }
        ensures { result ≡ (task_in (image_data self.now) i).sp }
    {
        task_at(self, i).sp
    }

    /// The i-th task's regions, in order.
    pub fn regions(&self, alloc: Global, i: usize) -> Result<Vec<Region>, AllocError>
        requires { i < length (image_data self.now).tasks }
        ensures { IfOk result (λ v. v.items ≡ regions_in (image_data self.now) i) }
    {
        regions_of(alloc, regions_in(self, i))
    }

    /// The names of the i-th task's notifications, of which the k-th is bit k.
    #[tactic(auto, using(crate::proofs::Shape::tasks_length))]
    pub fn notifications(&self, alloc: Global, i: usize) -> Result<Vec<String>, AllocError>
        requires { i < length (image_data self.now).tasks }
        ensures { IfOk result (λ v. map string_bytes v.items ≡ names_in (image_data self.now) i) }
    {
        let tasks = self.tasks.as_slice();
        let own = skip_names(named(tasks, i), self.names.as_slice());
        texts_of(alloc, usize::from(tasks[i].names), own)
    }

    /// How many interrupts, at most 64.
    pub fn line_count(&self) -> usize
        ensures { result ≡ length (image_data self.now).lines }
    {
        self.lines.len()
    }

    /// The k-th interrupt's line, below 64.
    pub fn line(&self, k: usize) -> u8
        requires { k < length (image_data self.now).lines }
        ensures { result ≡ (line_in (image_data self.now) k).line }
    {
        self.lines[k].line
    }

    /// The task that owns the k-th interrupt.
    pub fn line_task(&self, k: usize) -> u16
        requires { k < length (image_data self.now).lines }
        ensures { result ≡ (line_in (image_data self.now) k).task }
    {
        self.lines[k].task
    }

    /// The notification bits that the k-th interrupt posts.
    pub fn line_bits(&self, k: usize) -> u32
        requires { k < length (image_data self.now).lines }
        ensures { result ≡ (line_in (image_data self.now) k).bits }
    {
        self.lines[k].bits
    }

    /// The number, counted from one, of the region of its task whose device drives the k-th
    /// interrupt: 1 to 8, or 0 if no device drives it.
    pub fn line_device(&self, k: usize) -> u8
        requires { k < length (image_data self.now).lines }
        ensures { result ≡ (line_in (image_data self.now) k).device }
    {
        self.lines[k].device as u8
    }

    /// The region of the device that drives the k-th interrupt, or None if no device drives it.
    pub fn line_device_region(&self, k: usize) -> Option<Region>
        requires { k < length (image_data self.now).lines }
        ensures { result ≡ device_region (image_data self.now) k }
    {
        let line = self.lines[k];
        region_by(regions_in(self, usize::from(line.task)), line.device)
    }

    /// The notification bits that a fault posts to task 0.
    pub fn fault_bits(&self) -> u32
        ensures { result ≡ (image_data self.now).fault_bits }
    {
        self.header.bits
    }

    /// How many bytes of RAM, at most 262144.
    pub fn ram(&self) -> u32
        ensures { result ≡ (image_data self.now).ram }
    {
        self.header.ram
    }

    /// The bytes of flash, from 0x08000000 on, 1 to 1048576.
    pub fn flash(&self) -> &[u8]
        ensures { result.now ≡ (image_data self.now).flash }
    {
        self.flash.as_slice()
    }
}
