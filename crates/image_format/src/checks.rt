//! The checks of the header, of tasks and of interrupts.

ghost use Rattle.std.specs.Prelude.{◌≡◌, ◌≤◌, ◌<◌, ◌+◌, ◌*◌, ◌^◌, length, None};
ghost use Rattle.image_format.specs.declared.records.ImageForm.TheVariants.{First, Second};
ghost use Rattle.image_format.specs.Steps.{count_fault, count_place, field_fault, first_field_fault, line_fault, lines_fault, most_names, second_field_fault, task_fault, tasks_fault};

use crate::places::{header_size, lines_place};
use crate::records::{Header, ImageForm, LineRecord, TaskRecord};

/// The first refusal of a header of the first form.
fn check_first(h: &Header) -> Option<(u8, u32)>
    ensures { result ≡ first_field_fault h.now }
{
    if h.tasks < 1 || h.tasks > 32 {
        Some((3, 4))
    } else if h.lines > 32 {
        Some((3, 5))
    } else if h.regions < h.tasks || h.regions > 8 * h.tasks {
        Some((3, 6))
    } else if h.flash < 1 || h.flash > 1_048_576 {
        Some((3, 8))
    } else if h.ram > 262_144 {
        Some((3, 12))
    } else if h.bits == 0 {
        Some((3, 16))
    } else {
        None
    }
}

/// The first refusal of a header of the second form.
fn check_second(h: &Header) -> Option<(u8, u32)>
    ensures { result ≡ second_field_fault h.now }
{
    if h.tasks < 1 || h.tasks > 512 {
        Some((3, 4))
    } else if h.lines > 64 {
        Some((3, 6))
    } else if h.regions < h.tasks || h.regions > 8 * h.tasks {
        Some((3, 8))
    } else if h.zero != 0 {
        Some((3, 10))
    } else if h.flash < 1 || h.flash > 1_048_576 {
        Some((3, 12))
    } else if h.ram > 262_144 {
        Some((3, 16))
    } else if h.bits == 0 {
        Some((3, 20))
    } else if h.names > 409_600 {
        Some((3, 24))
    } else {
        None
    }
}

/// The first field of the header that is refused, as a cause and the place of a byte, or None if
/// none is. docs/FORMATS.md, Image.
#[tactic(auto, unfolding(crate::specs::Steps::field_fault))]
pub fn check_fields(h: &Header) -> Option<(u8, u32)>
    ensures { result ≡ field_fault h.now }
{
    match h.form {
        ImageForm::First => check_first(h),
        ImageForm::Second => check_second(h),
    }
}

/// The largest number of names that a task may have.
fn most_names(form: ImageForm) -> u8
    ensures { result ≡ most_names form }
{
    match form {
        ImageForm::First => 0,
        ImageForm::Second => 32,
    }
}

/// The first refusal of one task's record, which lies at `place`.
fn check_task(form: ImageForm, index: usize, t: &TaskRecord, place: u32) -> Option<(u8, u32)>
    requires { place + 12 ≤ 2 ^ 32 }
    ensures { result ≡ task_fault form index t.now place }
{
    if (index == 0 && t.priority != 0) || (index != 0 && t.priority == 0) {
        Some((5, place))
    } else if t.flags > 1 || (index == 0 && t.flags != 1) {
        Some((6, place + 1))
    } else if t.regions < 1 || t.regions > 8 {
        Some((3, place + 2))
    } else if t.names > most_names(form) {
        Some((3, place + 3))
    } else if t.sp % 4 != 0 {
        Some((7, place + 8))
    } else {
        None
    }
}

/// The first refusal of the tasks in order, as a cause and the place of a byte, or None if there is
/// none. docs/FORMATS.md, Image.
#[tactic(auto, using(crate::proofs::Limits::few_tasks))]
pub fn check_tasks(h: &Header, tasks: &[TaskRecord]) -> Option<(u8, u32)>
    requires fields { field_fault h.now ≡ None }
    requires tasks { length tasks.now ≡ h.now.tasks }
    ensures { result ≡ tasks_fault h.now tasks.now }
{
    let form = h.form;
    let mut place = header_size(form);
    for i in 0..tasks.len() {
        let found = check_task(form, i, &tasks[i], place);
        if found.is_some() {
            return found;
        }
        place += 12;
    }
    None
}

/// The place of the number of regions in the header.
fn count_place(form: ImageForm) -> u32
    ensures { result ≡ count_place form }
{
    match form {
        ImageForm::First => 6,
        ImageForm::Second => 8,
    }
}

/// Refuses the tasks if their numbers of regions do not sum to the number in the header.
/// docs/FORMATS.md, Image.
#[tactic(auto, using(crate::proofs::Limits::few_tasks, crate::proofs::Limits::few_regions))]
pub fn check_count(h: &Header, tasks: &[TaskRecord]) -> Option<(u8, u32)>
    requires fields { field_fault h.now ≡ None }
    requires tasks { length tasks.now ≡ h.now.tasks }
    ensures { result ≡ count_fault h.now tasks.now }
{
    let mut sum = 0u32;
    for t in tasks {
        sum += u32::from(t.regions);
    }
    if sum != u32::from(h.regions) {
        Some((3, count_place(h.form)))
    } else {
        None
    }
}

/// The first refusal of one interrupt's record of the first form, which lies at `place`. Its line
/// has to be `least` or higher.
fn check_first_line(least: u16, tasks: u16, l: &LineRecord, place: u32) -> Option<(u8, u32)>
    requires { place + 8 ≤ 2 ^ 32 }
    ensures { result ≡ line_fault First least tasks l.now place }
{
    if l.line > 31 || u16::from(l.line) < least {
        Some((13, place))
    } else if l.task >= tasks {
        Some((14, place + 1))
    } else if l.device != 0 {
        Some((3, place + 2))
    } else if l.bits == 0 {
        Some((15, place + 4))
    } else {
        None
    }
}

/// The first refusal of one interrupt's record of the second form, which lies at `place`. Its line
/// has to be `least` or higher.
fn check_second_line(least: u16, tasks: u16, l: &LineRecord, place: u32) -> Option<(u8, u32)>
    requires { place + 8 ≤ 2 ^ 32 }
    ensures { result ≡ line_fault Second least tasks l.now place }
{
    if l.line > 63 || u16::from(l.line) < least {
        Some((13, place))
    } else if l.device > 8 {
        Some((3, place + 1))
    } else if l.task >= tasks {
        Some((14, place + 2))
    } else if l.bits == 0 {
        Some((15, place + 4))
    } else {
        None
    }
}

fn check_line(
    form: ImageForm,
    least: u16,
    tasks: u16,
    l: &LineRecord,
    place: u32,
) -> Option<(u8, u32)>
    requires { place + 8 ≤ 2 ^ 32 }
    ensures { result ≡ line_fault form least tasks l.now place }
{
    match form {
        ImageForm::First => check_first_line(least, tasks, l, place),
        ImageForm::Second => check_second_line(least, tasks, l, place),
    }
}

/// The first refusal of the interrupts in order, as a cause and the place of a byte, or None if
/// there is none. docs/FORMATS.md, Image.
#[tactic(auto, using(crate::proofs::Limits::few_lines, crate::proofs::Limits::early_lines))]
pub fn check_lines(h: &Header, lines: &[LineRecord]) -> Option<(u8, u32)>
    requires fields { field_fault h.now ≡ None }
    requires lines { length lines.now ≡ h.now.lines }
    ensures { result ≡ lines_fault h.now lines.now }
{
    let form = h.form;
    let mut place = lines_place(h);
    let mut least = 0u16;
    for i in 0..lines.len() {
        let found = check_line(form, least, h.tasks, &lines[i], place);
        if found.is_some() {
            return found;
        }
        least = u16::from(lines[i].line) + 1;
        place += 8;
    }
    None
}
