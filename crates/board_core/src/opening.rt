//! The kernel at the start of a run of an image.
ghost use Rattle.std.specs.Prelude.{◌≡◌, ◌<◌, ◌+◌, ◌-◌, length, map, filter, vec_items, IfOk};
ghost use Rattle.image_format.specs.Images.{image_data};
ghost use Rattle.image_format.specs.ImageData.{device_region, task_in, line_in};
ghost use Rattle.mem_banks.specs.Memory.{Memory};
ghost use Rattle.task_table.specs.model.Start.{start};
ghost use Rattle.task_table.specs.kept.Parts.{task_setup, line_setup};
ghost use Rattle.task_table.specs.kept.Holds.{task_count, setup_of};
ghost use Rattle.board_core.specs.Regions.{ArePlaces, HavePlaces};
ghost use Rattle.board_core.specs.Opened.{base_of, setup_of_image, setup_of_task, setup_of_line};
ghost use Rattle.board_core.specs.Machine.{IsStarted};
ghost use Rattle.board_core.specs.fast.Sights.{is_port};
ghost use Rattle.board_core.specs.fast.IoRegions.{AreIoRegions};

use image_format::Image;
use region_check::Region;
use std::alloc::{AllocError, Global};
use task_table::{Kernel, LineStart, Memory, TaskStart};

/// What the image says of a task.
fn task_start(alloc: Global, image: &Image, i: usize) -> Result<TaskStart, AllocError>
    requires { i < length (image_data image.now).tasks }
    ensures { IfOk result (λ t. task_setup t ≡ setup_of_task (task_in (image_data image.now) i)) }
{
    Ok(TaskStart {
        priority: image.priority(i),
        started: image.is_started(i),
        entry: image.entry(i),
        sp: image.sp(i),
        regions: image.regions(alloc, i)?,
    })
}

/// What the image says of each task.
fn task_starts(alloc: Global, image: &Image) -> Result<Vec<TaskStart>, AllocError>
    ensures { IfOk result (λ v. map task_setup v.items ≡ map setup_of_task
        (image_data image.now).tasks) }
{
    let mut tasks = Vec::new(alloc);
    for i in 0..image.task_count() {
        tasks.push(task_start(alloc, image, i)?)?;
    }
    Ok(tasks)
}

/// The first address of the device that drives an interrupt line; 0 if none does.
fn line_device(image: &Image, k: usize) -> u32
    requires { k < length (image_data image.now).lines }
    ensures { result ≡ base_of (device_region (image_data image.now) k) }
{
    match image.line_device_region(k) {
        Some(region) => region.base,
        None => 0,
    }
}

/// What the image says of an interrupt line.
fn line_start(image: &Image, k: usize) -> LineStart
    requires { k < length (image_data image.now).lines }
    ensures { let p = image_data image.now in
        line_setup result ≡ setup_of_line p (line_in p k) }
{
    LineStart {
        line: image.line(k),
        task: image.line_task(k),
        bits: image.line_bits(k),
        device: line_device(image, k),
    }
}

/// What the image says of each interrupt line.
fn line_starts(alloc: Global, image: &Image) -> Result<Vec<LineStart>, AllocError>
    ensures { let p = image_data image.now in
        IfOk result (λ v. map line_setup v.items ≡ map (setup_of_line p) p.lines) }
{
    let mut lines = Vec::new(alloc);
    for k in 0..image.line_count() {
        lines.push(line_start(image, k))?;
    }
    Ok(lines)
}

/// Adds base and size of those of the i-th task's regions that are no devices.
fn push_places(
    alloc: Global,
    image: &Image,
    i: usize,
    places: &mut Vec<(u32, u32)>,
) -> Result<(), AllocError>
    requires task { i < length (image_data image.now).tasks }
    requires places { ArePlaces (image_data image.now) places.old.items }
    requires before { HavePlaces (image_data image.now) i places.old.items }
    ensures places { IfOk result (λ _. ArePlaces (image_data image.now) places.new.items) }
    ensures all { IfOk result (λ _. HavePlaces (image_data image.now) (i + 1) places.new.items) }
{
    let regions = image.regions(alloc, i)?;
    for k in 0..regions.len() {
        let region = regions[k];
        if !region.rights.device {
            places.push((region.base, region.size))?;
        }
    }
    Ok(())
}

/// The base and the size in bytes of each region that is no device.
fn places(alloc: Global, image: &Image) -> Result<Vec<(u32, u32)>, AllocError>
    ensures places { IfOk result (λ v. ArePlaces (image_data image.now) v.items) }
    ensures all { IfOk result (λ v. HavePlaces (image_data image.now)
        (length (image_data image.now).tasks) v.items) }
{
    let mut places = Vec::new(alloc);
    for i in 0..image.task_count() {
        push_places(alloc, image, i, &mut places)?;
    }
    Ok(places)
}

/// The kernel at the start of a run of an image.
pub fn kernel(alloc: Global, image: &Image) -> Result<Kernel, AllocError>
    ensures { IfOk result (λ k. IsStarted (setup_of_image (image_data image.now)) k) }
{
    image.facts();
    let flash = image.flash();
    let places = places(alloc, image)?;
    let memory = Memory::open(alloc, flash, image.ram(), &places)?;
    let tasks = task_starts(alloc, image)?;
    let lines = line_starts(alloc, image)?;
    Kernel::start(alloc, memory, image.fault_bits(), &tasks, &lines)
}

/// The I/O regions among these regions: those of devices that may be read.
fn io_regions_among(alloc: Global, regions: &[Region]) -> Result<Vec<Region>, AllocError>
    ensures { IfOk result (λ v. v.items ≡ filter is_port regions.now) }
{
    regions
        .iter()
        .copied()
        .filter(|region| region.rights.device && region.rights.read)
        .collect(alloc)
}

/// The regions of devices that each task may read.
pub fn io_regions(alloc: Global, kernel: &Kernel) -> Result<Vec<Vec<Region>>, AllocError>
    ensures { IfOk result (λ v. AreIoRegions (setup_of kernel.now) (task_count kernel.now)
        (map vec_items v.items)) }
{
    let mut io_regions = Vec::new(alloc);
    for task in 0..kernel.task_count() {
        io_regions.push(io_regions_among(alloc, kernel.regions(task))?)?;
    }
    Ok(io_regions)
}
