//! Reads the contents of a document.

ghost use Rattle.std.specs.Prelude.{◌≡◌, IfOk, map, option_map, string_bytes};
ghost use Rattle.toml.specs.Data.{Members, no_members};
ghost use Rattle.toml.specs.View.{items_view, table_view, view};
ghost use Rattle.app_toml.specs.Apps.{DeviceData, InterruptData, RegionData, TaskData};
ghost use Rattle.app_toml.specs.Held.{parts_of};
ghost use Rattle.app_toml.specs.Sites.{device_of, interrupt_of, region_of, task_of};
ghost use Rattle.app_toml.specs.Values.{app_in, byte_in, device_in, each_in, flag_in, interrupt_in, items_in, members_in, number_in, region_in, some_text_in, table_of, task_in, text_in, text_of, texts_in, texts_of};

use crate::keys::member;
use crate::parts::{DeviceSpec, LineSpec, Parts, RegionSpec, TaskSpec};
use std::alloc::{AllocError, Global};
use toml::{Table, Value};

fn number_in(table: &Table, name: &str) -> u32
    ensures { result ≡ number_in name.now (table_view table.now) }
{
    let value = match member(table, name) {
        Some(value) => value,
        None => return 0,
    };
    match value.as_integer() {
        Some(number) => match u32::try_from(number) {
            Ok(small) => small,
            Err(_) => 0,
        },
        None => 0,
    }
}

fn byte_in(table: &Table, name: &str) -> u8
    ensures { result ≡ byte_in name.now (table_view table.now) }
{
    match u8::try_from(number_in(table, name)) {
        Ok(small) => small,
        Err(_) => 0,
    }
}

fn flag_in(table: &Table, name: &str) -> bool
    ensures { result ≡ flag_in name.now (table_view table.now) }
{
    match member(table, name) {
        Some(value) => value.as_bool().unwrap_or(true),
        None => true,
    }
}

fn text_of(value: &Value) -> &str
    ensures { result.now ≡ text_of (view value.now) }
{
    match value.as_str() {
        Some(text) => text,
        None => "",
    }
}

fn text_in(alloc: Global, table: &Table, name: &str) -> Result<String, AllocError>
    ensures { IfOk result (λ s. string_bytes s ≡ text_in name.now (table_view table.now)) }
{
    match member(table, name) {
        Some(value) => String::from_str(alloc, text_of(value)),
        None => String::from_str(alloc, ""),
    }
}

/// The text of a key that may be absent.
fn some_text_in(alloc: Global, table: &Table, name: &str) -> Result<Option<String>, AllocError>
    ensures { IfOk result (λ s. option_map string_bytes s
        ≡ some_text_in name.now (table_view table.now)) }
{
    match member(table, name) {
        Some(value) => Ok(Some(String::from_str(alloc, text_of(value))?)),
        None => Ok(None),
    }
}

fn texts_of(alloc: Global, values: &[Value]) -> Result<Vec<String>, AllocError>
    ensures { IfOk result (λ v. map string_bytes v.items ≡ texts_of (items_view values.now)) }
{
    let mut texts = Vec::new(alloc);
    for value in values {
        texts.push(String::from_str(alloc, text_of(value))?)?;
    }
    Ok(texts)
}

/// The values of a list; none if there is no list.
fn values_in<'a>(table: &'a Table, name: &str) -> &'a [Value]
    ensures { items_view result.now ≡ items_in name.now (table_view table.now) }
{
    match member(table, name) {
        Some(value) => match value.as_array() {
            Some(values) => values.as_slice(),
            None => &[],
        },
        None => &[],
    }
}

fn texts_in(alloc: Global, table: &Table, name: &str) -> Result<Vec<String>, AllocError>
    ensures { IfOk result (λ v. map string_bytes v.items
        ≡ texts_in name.now (table_view table.now)) }
{
    texts_of(alloc, values_in(table, name))
}

fn table_of<'a>(empty: &'a Table, value: &'a Value) -> &'a Table
    requires { table_view empty.now ≡ no_members }
    ensures { table_view result.now ≡ table_of (view value.now) }
{
    match value.as_table() {
        Some(table) => table,
        None => empty,
    }
}

fn members_in<'a>(empty: &'a Table, document: &'a Table, name: &str) -> &'a Table
    requires { table_view empty.now ≡ no_members }
    ensures { table_view result.now ≡ members_in name.now (table_view document.now) }
{
    match member(document, name) {
        Some(value) => table_of(empty, value),
        None => empty,
    }
}

/// An entry of a list of tables, which is read from its table.
trait Row: Sized {
    ghost Data: { Type 0 };

    ghost said: { Self → Data };

    ghost reading: { Members → Data };

    fn in_table(alloc: Global, table: &Table) -> Result<Self, AllocError>
        ensures { IfOk result (λ row. said row ≡ reading (table_view table.now)) };
}

impl Row for TaskSpec {
    ghost Data = { TaskData };

    ghost said = { task_of };

    ghost reading = { task_in };

    fn in_table(alloc: Global, table: &Table) -> Result<TaskSpec, AllocError> {
        let name = text_in(alloc, table, "name")?;
        let source = text_in(alloc, table, "source")?;
        let notifications = texts_in(alloc, table, "notifications")?;
        let uses = texts_in(alloc, table, "uses")?;
        let reads = texts_in(alloc, table, "reads")?;
        Ok(TaskSpec {
            name,
            source,
            priority: byte_in(table, "priority"),
            start: flag_in(table, "start"),
            flash: number_in(table, "flash"),
            ram: number_in(table, "ram"),
            stack: number_in(table, "stack"),
            notifications,
            uses,
            reads,
        })
    }
}

impl Row for RegionSpec {
    ghost Data = { RegionData };

    ghost said = { region_of };

    ghost reading = { region_in };

    fn in_table(alloc: Global, table: &Table) -> Result<RegionSpec, AllocError> {
        let name = text_in(alloc, table, "name")?;
        Ok(RegionSpec {
            name,
            size: number_in(table, "size"),
        })
    }
}

impl Row for DeviceSpec {
    ghost Data = { DeviceData };

    ghost said = { device_of };

    ghost reading = { device_in };

    fn in_table(alloc: Global, table: &Table) -> Result<DeviceSpec, AllocError> {
        let name = text_in(alloc, table, "name")?;
        Ok(DeviceSpec {
            name,
            base: number_in(table, "base"),
            size: number_in(table, "size"),
        })
    }
}

impl Row for LineSpec {
    ghost Data = { InterruptData };

    ghost said = { interrupt_of };

    ghost reading = { interrupt_in };

    fn in_table(alloc: Global, table: &Table) -> Result<LineSpec, AllocError> {
        let task = text_in(alloc, table, "task")?;
        let notification = text_in(alloc, table, "notification")?;
        let device = some_text_in(alloc, table, "device")?;
        Ok(LineSpec {
            line: byte_in(table, "line"),
            task,
            notification,
            device,
        })
    }
}

fn rows_in<T: Row + Drop>(
    alloc: Global,
    empty: &Table,
    values: &[Value],
) -> Result<Vec<T>, AllocError>
    requires { table_view empty.now ≡ no_members }
    ensures { IfOk result (λ v. map T.said v.items ≡ each_in T.reading (items_view values.now)) }
{
    let mut rows = Vec::new(alloc);
    for value in values {
        rows.push(T::in_table(alloc, table_of(empty, value))?)?;
    }
    Ok(rows)
}

/// The contents of a document whose values have their forms.
pub(crate) fn parts_in(alloc: Global, document: &Table) -> Result<Parts, AllocError>
    ensures { IfOk result (λ p. parts_of p ≡ app_in (table_view document.now)) }
{
    let empty = Table::new(alloc);
    let board = members_in(&empty, document, "board");
    let supervisor = members_in(&empty, document, "supervisor");
    let fault = text_in(alloc, supervisor, "fault")?;
    let tasks = rows_in(alloc, &empty, values_in(document, "task"))?;
    let regions = rows_in(alloc, &empty, values_in(document, "region"))?;
    let devices = rows_in(alloc, &empty, values_in(document, "device"))?;
    let interrupts = rows_in(alloc, &empty, values_in(document, "interrupt"))?;
    Ok(Parts {
        flash: number_in(board, "flash"),
        ram: number_in(board, "ram"),
        fault,
        tasks,
        regions,
        devices,
        interrupts,
    })
}
