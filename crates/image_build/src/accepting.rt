//! Accepts sources one by one.

ghost use Rattle.std.specs.Prelude.{◌≡◌, ◌≤◌, ◌<◌, ◌+◌, ◌^◌, ◌++◌, ◌∷◌, ◌⊎◌, ℕ, List, [], length, slice_index, IfOk, IfErr, OnOk, OnErr};
ghost use Rattle.std.specs.BTreeMap.{get_by_text};
ghost use Rattle.app_toml.specs.Held.{app_of};
ghost use Rattle.thumb_asm.specs.Passes.{Refuses, names_of};
ghost use Rattle.image_build.specs.Building.{HasRoom, IsAssembled, LacksRoom, RefusesSource, source_cause};
ghost use Rattle.image_build.specs.Layout.{flash_base};
ghost use Rattle.image_build.specs.Symbols.{own_symbols};
ghost use Rattle.image_build.specs.Accepted.{HasAccepted, described, next_task};

use crate::builder::Builder;
use crate::fault::BuildFault;
use crate::layout::laid_out;
use crate::reading::{flash_base, task};
use crate::symbols::{own_symbols, shared_symbols};
use app_toml::App;
use mem_banks::FLASH;
use std::alloc::Global;
use thumb_asm::{AsmFault, Object, assemble_with};

/// Writes the code into the flash from this offset on.
fn put(flash: &mut [u8], at: usize, code: &[u8])
    requires { at + length code.now ≤ length flash.old }
    ensures stands { (k : ℕ) → k < length code.now →
        slice_index flash.new (at + k) ≡ slice_index code.now k }
    ensures kept { (k : ℕ) → (k < at) ⊎ (at + length code.now ≤ k) →
        slice_index flash.new k ≡ slice_index flash.old k }
{
    for k in 0..code.len() {
        flash[at + k] = code[k];
    }
}

/// Assembles the next task's source, with its own symbols and those that all sources share.
fn assemble_next(
    builder: &Builder<'_>,
    bytes: &[u8],
    own: &[(String, u32)],
) -> Result<Object, AsmFault>
    requires left { next_task builder.now < length (described builder.now).tasks }
    requires own { names_of own.now ≡ own_symbols (described builder.now) (next_task builder.now) }
    ensures assembled { IfOk result (λ o. IsAssembled (described builder.now)
        (next_task builder.now) bytes.now o.bytes.items (get_by_text o.labels)) }
    ensures refused { IfErr result (λ e. Refuses e
        (source_cause (described builder.now) (next_task builder.now) bytes.now)) }
{
    let base = flash_base(builder.app, &builder.layout, builder.done);
    assemble_with(builder.alloc, bytes, base, &builder.shared, own)
}

/// The object to which the next task's source is assembled.
fn assembled(builder: &Builder<'_>, bytes: &[u8]) -> Result<Object, BuildFault>
    requires left { next_task builder.now < length (described builder.now).tasks }
    ensures assembled { IfOk result (λ o. IsAssembled (described builder.now)
        (next_task builder.now) bytes.now o.bytes.items (get_by_text o.labels)) }
    ensures refused { IfErr result (RefusesSource (described builder.now) (next_task builder.now)
        bytes.now) }
{
    let next = builder.done;
    let own = own_symbols(builder.alloc, builder.app, &builder.layout, next)?;
    match assemble_next(builder, bytes, own.as_slice()) {
        Ok(object) => Ok(object),
        Err(AsmFault::Refused(cause, line)) => Err(BuildFault::Source {
            task: next,
            cause: cause.number(),
            line,
        }),
        Err(AsmFault::Memory) => Err(BuildFault::Memory),
    }
}

impl<'a> Builder<'a> {
    /// A builder of the application, for which the board has room. It has accepted no source yet.
    ///
    /// # Errors
    ///
    /// `Flash` if the tasks' flash has no room, otherwise `Ram` if the RAM of tasks and regions has
    /// none; `Memory` if memory ran out.
    pub fn open(alloc: Global, app: &'a App) -> Result<Builder<'a>, BuildFault>
        ensures described { IfOk result (λ b. described b ≡ app_of app.now) }
        ensures none { IfOk result (HasAccepted []) }
        ensures room { IfOk result (λ b. HasRoom (app_of app.now)) }
        ensures refused { IfErr result (LacksRoom (app_of app.now)) }
    {
        let layout = laid_out(alloc, app)?;
        let shared = shared_symbols(alloc, app, &layout)?;
        let flash = Vec::from_elem(alloc, 0u8, layout.flash_length as usize)?;
        Ok(Builder {
            alloc,
            app,
            layout,
            shared,
            flash,
            done: 0,
        })
    }

    /// The index of the task whose source is next, or the number of tasks if all sources have been
    /// accepted.
    pub fn next(&self) -> usize
        ensures { result ≡ next_task self.now }
    {
        self.done
    }

    /// The address at which the next task's source is assembled.
    pub fn base(&self) -> u32
        requires { next_task self.now < length (described self.now).tasks }
        ensures value { result ≡ flash_base (described self.now) (next_task self.now) }
        ensures low { result + 1048576 < 2 ^ 32 }
    {
        flash_base(self.app, &self.layout, self.done)
    }

    /// Takes the next task's source. If the source is refused, nothing changes.
    ///
    /// # Errors
    ///
    /// `Source` if the assembler refuses it, otherwise `Code` if it gives more bytes than the
    /// task's flash has; `Memory` if memory ran out.
    pub fn source(&mut self, bytes: &[u8]) -> Result<(), BuildFault>
        requires { next_task self.old < length (described self.old).tasks }
        ensures described { described self.new ≡ described self.old }
        ensures accepted { OnOk result ((sources : List (List ℕ)) → HasAccepted sources self.old →
            HasAccepted (sources ++ bytes.now ∷ []) self.new) }
        ensures refused { IfErr result (RefusesSource (described self.old) (next_task self.old)
            bytes.now) }
        ensures unchanged { OnErr result (self.new ≡ self.old) }
    {
        let object = assembled(self, bytes)?;
        let length = object.bytes.len();
        let next = self.done;
        if (task(self.app, next).flash as usize) < length {
            return Err(BuildFault::Code { task: next, length });
        }
        let at = (flash_base(self.app, &self.layout, next) - FLASH) as usize;
        put(self.flash.as_mut_slice(), at, object.bytes.as_slice());
        self.done = next + 1;
        Ok(())
    }
}
