//! The contents of an image, as one line of JSON.
#![tactic(auto)]

ghost use Rattle.std.specs.Prelude.{◌≡◌, ◌≤◌, ◌<◌, IfOk, filter, length, map, string_bytes, vec_items};
ghost use Rattle.std.specs.List.{range_with_len};
ghost use Rattle.serde_json.specs.Data.{string};
ghost use Rattle.serde_json.specs.View.{view};
ghost use Rattle.serde_json.specs.Written.{compact_text};
ghost use Rattle.image_format.specs.Images.{image_data};
ghost use Rattle.region_check.specs.Rights.{is_alone};
ghost use Rattle.image_format.specs.Loners.{is_loner, loners, own_regions, regions_beside, regions_by_task};
ghost use Rattle.image_format.specs.ImageData.{bit, line_in, rights_number, task_in};
ghost use Rattle.image_list.specs.Listing.{listed_object, line_data, region_data, task_data, whole};

use image_format::Image;
use region_check::{Region, Rights, alone};
use serde_json::{Value, json};
use std::alloc::{AllocError, Global};

/// The value if the right is there, otherwise 0.
fn bit(has: bool, value: u8) -> u8
    ensures value { result ≡ bit has value }
    ensures most { result ≤ value }
{
    if has { value } else { 0 }
}

fn rights_number(rights: &Rights) -> u8
    ensures { result ≡ rights_number rights.now }
{
    bit(rights.read, 1) + bit(rights.write, 2) + bit(rights.execute, 4) + bit(rights.device, 8)
}

fn region_value(alloc: Global, region: &Region) -> Result<Value, AllocError>
    ensures { IfOk result (λ v. view v ≡ region_data region.now) }
{
    let rights = rights_number(&region.rights);
    json!(in alloc; {"base": region.base, "rights": rights, "size": region.size})
}

fn region_values(alloc: Global, regions: &[Region]) -> Result<Vec<Value>, AllocError>
    ensures { IfOk result (λ v. map view v.items ≡ map region_data regions.now) }
{
    let mut values = Vec::new(alloc);
    for region in regions {
        values.push(region_value(alloc, region)?)?;
    }
    Ok(values)
}

fn regions_of(alloc: Global, image: &Image, i: usize) -> Result<Vec<Value>, AllocError>
    requires { i < length (image_data image.now).tasks }
    ensures { IfOk result (λ v. map view v.items ≡ map region_data
        (task_in (image_data image.now) i).regions) }
{
    let regions = image.regions(alloc, i)?;
    region_values(alloc, regions.as_slice())
}

fn name_value(alloc: Global, name: &str) -> Result<Value, AllocError>
    ensures { IfOk result (λ v. view v ≡ string name.now) }
{
    let text = String::from_str(alloc, name)?;
    Ok(Value::String(text))
}

fn name_values(alloc: Global, names: &[String]) -> Result<Vec<Value>, AllocError>
    ensures { IfOk result (λ v. map view v.items ≡ map string (map string_bytes names.now)) }
{
    let mut values = Vec::new(alloc);
    for name in names {
        values.push(name_value(alloc, name.as_str())?)?;
    }
    Ok(values)
}

/// The names of the i-th task's notifications.
fn names_of(alloc: Global, image: &Image, i: usize) -> Result<Vec<Value>, AllocError>
    requires { i < length (image_data image.now).tasks }
    ensures { IfOk result (λ v. map view v.items ≡ map string
        (task_in (image_data image.now) i).names) }
{
    let names = image.notifications(alloc, i)?;
    name_values(alloc, names.as_slice())
}

/// 1 for a task that runs from the start, otherwise 0.
fn start_of(image: &Image, i: usize) -> u8
    requires { i < length (image_data image.now).tasks }
    ensures { result ≡ bit (task_in (image_data image.now) i).started 1 }
{
    bit(image.is_started(i), 1)
}

fn task_value(alloc: Global, image: &Image, i: usize) -> Result<Value, AllocError>
    requires { i < length (image_data image.now).tasks }
    ensures { IfOk result (λ v. view v ≡ task_data (task_in (image_data image.now) i)) }
{
    let start = start_of(image, i);
    let names = names_of(alloc, image, i)?;
    let regions = regions_of(alloc, image, i)?;
    json!(in alloc; {
        "entry": image.entry(i),
        "notifications": names,
        "priority": image.priority(i),
        "regions": regions,
        "sp": image.sp(i),
        "start": start
    })
}

fn task_values(alloc: Global, image: &Image) -> Result<Vec<Value>, AllocError>
    ensures { IfOk result (λ v. map view v.items ≡ map task_data (image_data image.now).tasks) }
{
    let mut values = Vec::new(alloc);
    for i in 0..image.task_count() {
        values.push(task_value(alloc, image, i)?)?;
    }
    Ok(values)
}

fn line_value(alloc: Global, image: &Image, k: usize) -> Result<Value, AllocError>
    requires { k < length (image_data image.now).lines }
    ensures { IfOk result (λ v. view v ≡ line_data (line_in (image_data image.now) k)) }
{
    let device = image.line_device(k);
    if device == 0 {
        json!(in alloc; {
            "bits": image.line_bits(k),
            "line": image.line(k),
            "task": image.line_task(k)
        })
    } else {
        json!(in alloc; {
            "bits": image.line_bits(k),
            "device": device - 1,
            "line": image.line(k),
            "task": image.line_task(k)
        })
    }
}

fn line_values(alloc: Global, image: &Image) -> Result<Vec<Value>, AllocError>
    ensures { IfOk result (λ v. map view v.items ≡ map line_data (image_data image.now).lines) }
{
    let mut values = Vec::new(alloc);
    for k in 0..image.line_count() {
        values.push(line_value(alloc, image, k)?)?;
    }
    Ok(values)
}

/// The regions of each task, in the order of the tasks.
fn regions_by_task(alloc: Global, image: &Image) -> Result<Vec<Vec<Region>>, AllocError>
    ensures { IfOk result (λ v. map vec_items v.items ≡ regions_by_task (image_data image.now)) }
{
    let mut tasks = Vec::new(alloc);
    for i in 0..image.task_count() {
        tasks.push(image.regions(alloc, i)?)?;
    }
    Ok(tasks)
}

/// Whether task i has no device, and no region of task j if that is another one.
fn is_alone_beside(tasks: &[Vec<Region>], i: usize, j: usize) -> bool
    requires own { i < length tasks.now }
    requires other { j < length tasks.now }
    ensures { result ≡ is_alone (own_regions (map vec_items tasks.now) i)
        (regions_beside (map vec_items tasks.now) i j) }
{
    let own = tasks[i].as_slice();
    if j == i {
        alone(own, &[])
    } else {
        alone(own, tasks[j].as_slice())
    }
}

/// Whether task i shares nothing with another task. `tasks` has the regions of each task.
fn is_loner(tasks: &[Vec<Region>], i: usize) -> bool
    requires { i < length tasks.now }
    ensures { result ≡ is_loner (map vec_items tasks.now) i }
{
    for j in 0..tasks.len() {
        if !is_alone_beside(tasks, i, j) {
            return false;
        }
    }
    true
}

/// The indices of the tasks that share nothing with another one, ascending. `tasks` has the regions
/// of each task.
fn loners_among(alloc: Global, tasks: &[Vec<Region>]) -> Result<Vec<usize>, AllocError>
    ensures { IfOk result (λ v. v.items ≡ filter (is_loner (map vec_items tasks.now))
        (range_with_len 0 (length tasks.now))) }
{
    let mut loners = Vec::new(alloc);
    for i in 0..tasks.len() {
        if is_loner(tasks, i) {
            loners.push(i)?;
        }
    }
    Ok(loners)
}

fn number_values(alloc: Global, numbers: &[usize]) -> Result<Vec<Value>, AllocError>
    ensures { IfOk result (λ v. map view v.items ≡ map whole numbers.now) }
{
    let mut values = Vec::new(alloc);
    for number in numbers {
        values.push(json!(in alloc; *number)?)?;
    }
    Ok(values)
}

fn loner_values(alloc: Global, image: &Image) -> Result<Vec<Value>, AllocError>
    ensures { IfOk result (λ v. map view v.items ≡ map whole (loners (image_data image.now))) }
{
    let tasks = regions_by_task(alloc, image)?;
    let loners = loners_among(alloc, tasks.as_slice())?;
    number_values(alloc, loners.as_slice())
}

fn image_value(alloc: Global, image: &Image) -> Result<Value, AllocError>
    ensures { IfOk result (λ v. view v ≡ listed_object (image_data image.now)) }
{
    let tasks = task_values(alloc, image)?;
    let lines = line_values(alloc, image)?;
    let loners = loner_values(alloc, image)?;
    json!(in alloc; {
        "flash": image.flash().len(),
        "interrupts": lines,
        "loners": loners,
        "ram": image.ram(),
        "supervisor": image.fault_bits(),
        "tasks": tasks
    })
}

/// The image as one JSON object without blanks, its keys in byte order (docs/FORMATS.md, Listing):
/// how many bytes of flash and of RAM, the interrupts, the tasks that share nothing with another
/// one, the bits posted to the supervisor at a fault, and the tasks, each with the names of its
/// notifications and its regions; rights as a sum of 1 read, 2 write, 4 execute, 8 device.
///
/// # Errors
///
/// `AllocError` if memory ran out.
pub fn list(alloc: Global, image: &Image) -> Result<String, AllocError>
    ensures { IfOk result (λ s. string_bytes s ≡ compact_text
        (listed_object (image_data image.now))) }
{
    image_value(alloc, image)?.to_string(alloc)
}
