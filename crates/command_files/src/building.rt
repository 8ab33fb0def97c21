//! From the files of an application to its image.
ghost use Rattle.std.specs.Prelude.{◌≡◌, ◌≤◌, ◌<◌, ◌⊎◌, ◌++◌, ◌∷◌, [], ℕ, List, length, None, IfOk, OnOk, IfErr};
ghost use Rattle.app_toml.specs.Held.{app_of};
ghost use Rattle.image_format.specs.Images.{image_data};
ghost use Rattle.image_build.specs.Accepted.{HasAccepted, described, next_task};
ghost use Rattle.outside_io.specs.Seen.{OnlyReads};
ghost use Rattle.command_files.specs.Contents.{file_limit, room_refusal, source_refusal};
ghost use Rattle.command_files.specs.FileFaults.{IsFaultFor, IsNamedFaultOf};
ghost use Rattle.command_files.specs.Building.{HasNext, HasAll, IsBuiltApp, IsImageOf, IsImage, KeepsNone, IsNamedFaultInApp, IsNamedFaultInSources};

use crate::file_faults::{FileFault, NamedFault, fault_by_plan, fault_by_source, fault_named};
use crate::source_lines::SourceLines;
use crate::sources::{FILE_LIMIT, app_in, read_contents};
use app_toml::App;
use image_build::Builder;
use image_format::Image;
use outside_io::Files;
use std::alloc::Global;

// A builder of the application, if the board has room for it.
fn opened<'a>(alloc: Global, app: &'a App) -> Result<Builder<'a>, FileFault>
    ensures described { IfOk result (λ b. described b ≡ app_of app.now) }
    ensures none { IfOk result (HasAccepted []) }
    ensures room { IfOk result (λ b. room_refusal (app_of app.now) ≡ None) }
    ensures file_fault { IfErr result (IsFaultFor (room_refusal (app_of app.now))) }
{
    match Builder::open(alloc, app) {
        Ok(builder) => Ok(builder),
        Err(fault) => Err(fault_by_plan(alloc, fault)),
    }
}

// Takes the bytes of a file as the source of the next task.
fn take_bytes(alloc: Global, builder: &mut Builder<'_>, bytes: &[u8]) -> Result<(), FileFault>
    requires next { next_task builder.old < length (described builder.old).tasks }
    requires few { length bytes.now ≤ file_limit }
    ensures described { described builder.new ≡ described builder.old }
    ensures accepted_sources { (sources : List (List ℕ)) → HasAccepted sources builder.old →
        OnOk result (HasAccepted (sources ++ bytes.now ∷ []) builder.new) }
    ensures accepted { (sources : List (List ℕ)) → HasAccepted sources builder.old →
        OnOk result (source_refusal (described builder.old) (next_task builder.old) bytes.now ≡
        None) }
    ensures file_fault { IfErr result
        (IsFaultFor (source_refusal (described builder.old) (next_task builder.old) bytes.now)) }
{
    match builder.source(bytes) {
        Ok(()) => Ok(()),
        Err(fault) => Err(fault_by_source(alloc, fault)),
    }
}

// Takes the file under a name as the source of the next task.
fn take_source<F: Files>(
    alloc: Global,
    files: &mut F,
    name: &str,
    builder: &mut Builder<'_>,
    lines: &mut SourceLines,
) -> Result<(), NamedFault>
    requires next { next_task builder.old < length (described builder.old).tasks }
    ensures described { described builder.new ≡ described builder.old }
    ensures accepted_sources { (sources : List (List ℕ)) → HasAccepted sources builder.old →
        OnOk result (HasNext (F.seen files.old).contents name.now sources builder.old builder.new
        lines.old lines.new) }
    ensures named_fault { IfErr result
        (IsNamedFaultOf (F.seen files.old) (F.seen files.new) record {
          name = name.now;
          limit = file_limit;
          refusal = source_refusal (described builder.old)
              (next_task builder.old);
        }) }
    ensures only_reads { OnlyReads (F.seen files.old) (F.seen files.new) }
{
    let bytes = match read_contents(alloc, files, name, FILE_LIMIT) {
        Ok(bytes) => bytes,
        Err(file_fault) => return Err(fault_named(alloc, name, file_fault)),
    };
    let base = builder.base();
    match take_bytes(alloc, builder, &bytes) {
        Ok(()) => {}
        Err(file_fault) => return Err(fault_named(alloc, name, file_fault)),
    }
    match lines.add(alloc, &bytes, base) {
        Ok(()) => Ok(()),
        Err(_) => Err(NamedFault::Memory),
    }
}

// Takes the sources of all tasks in their order.
fn take_sources<F: Files>(
    alloc: Global,
    files: &mut F,
    app: &App,
    builder: &mut Builder<'_>,
    lines: &mut SourceLines,
) -> Result<(), NamedFault>
    requires described { described builder.old ≡ app_of app.now }
    requires none { HasAccepted [] builder.old }
    requires unlisted { KeepsNone lines.old }
    ensures described { described builder.new ≡ described builder.old }
    ensures wanted { OnOk result (lines.new.wanted ≡ lines.old.wanted) }
    ensures accepted_sources { OnOk result
        (HasAll (F.seen files.old).contents (app_of app.now) builder.new lines.new) }
    ensures named_fault { IfErr result
        (IsNamedFaultInSources (F.seen files.old) (F.seen files.new) (app_of app.now)) }
    ensures only_reads { OnlyReads (F.seen files.old) (F.seen files.new) }
{
    for task in app.tasks() {
        match take_source(alloc, files, &task.source, builder, lines) {
            Ok(()) => {}
            Err(named_fault) => return Err(named_fault),
        }
    }
    Ok(())
}

// The image of an application. The sources of its tasks are read here.
fn image_of<F: Files>(
    alloc: Global,
    files: &mut F,
    app: &App,
    builder: Builder<'_>,
    lines: &mut SourceLines,
) -> Result<Image, NamedFault>
    requires described { described builder ≡ app_of app.now }
    requires none { HasAccepted [] builder }
    requires unlisted { KeepsNone lines.old }
    ensures wanted { IfOk result (λ _. lines.new.wanted ≡ lines.old.wanted) }
    ensures image { IfOk result (λ i. IsImageOf (F.seen files.old).contents (app_of app.now)
        (image_data i) lines.new) }
    ensures named_fault { IfErr result
        (λ h. (h ≡ NamedFault.Memory) ⊎ IsNamedFaultInSources (F.seen files.old) (F.seen files.new)
        (app_of app.now) h) }
    ensures only_reads { OnlyReads (F.seen files.old) (F.seen files.new) }
{
    let mut builder = builder;
    match take_sources(alloc, files, app, &mut builder, lines) {
        Ok(()) => {}
        Err(named_fault) => return Err(named_fault),
    }
    match builder.finish() {
        Ok(image) => Ok(image),
        Err(_) => Err(NamedFault::Memory),
    }
}

/// An application, its image, and where the instructions and the labels of its sources lie.
#[derive(Drop)]
pub struct BuiltApp {
    pub app: App,
    pub image: Image,
    pub lines: SourceLines,
}

/// The application under a name, and its image. If it is wanted, also where the instructions and
/// the labels of its sources lie.
pub fn built_app<F: Files>(
    alloc: Global,
    files: &mut F,
    name: &str,
    wanted: bool,
) -> Result<BuiltApp, NamedFault>
    ensures built { IfOk result (λ b. IsBuiltApp (F.seen files.old).contents name.now wanted
        (app_of b.app) (image_data b.image) b.lines) }
    ensures named_fault { IfErr result
        (IsNamedFaultInApp (F.seen files.old) (F.seen files.new) name.now) }
    ensures only_reads { OnlyReads (F.seen files.old) (F.seen files.new) }
{
    let bytes = match read_contents(alloc, files, name, FILE_LIMIT) {
        Ok(bytes) => bytes,
        Err(file_fault) => return Err(fault_named(alloc, name, file_fault)),
    };
    let app = match app_in(alloc, &bytes) {
        Ok(app) => app,
        Err(file_fault) => return Err(fault_named(alloc, name, file_fault)),
    };
    let mut lines = SourceLines::none(alloc, wanted);
    let builder = match opened(alloc, &app) {
        Ok(builder) => builder,
        Err(file_fault) => return Err(fault_named(alloc, name, file_fault)),
    };
    match image_of(alloc, files, &app, builder, &mut lines) {
        Ok(image) => Ok(BuiltApp { app, image, lines }),
        Err(named_fault) => Err(named_fault),
    }
}

/// The image of the application under a name.
pub fn built_image<F: Files>(alloc: Global, files: &mut F, name: &str) -> Result<Image, NamedFault>
    ensures image { IfOk result (λ i. IsImage (F.seen files.old).contents name.now (image_data i)) }
    ensures named_fault { IfErr result
        (IsNamedFaultInApp (F.seen files.old) (F.seen files.new) name.now) }
    ensures only_reads { OnlyReads (F.seen files.old) (F.seen files.new) }
{
    match built_app(alloc, files, name, false) {
        Ok(built) => Ok(built.image),
        Err(named_fault) => Err(named_fault),
    }
}
