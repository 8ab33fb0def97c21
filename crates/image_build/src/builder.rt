//! A builder: an application and the sources that have been accepted.

ghost use Rattle.std.specs.Prelude.{◌≡◌, length};
ghost use Rattle.app_toml.specs.Held.{app_of};
ghost use Rattle.thumb_asm.specs.Chars.{entry_at};
ghost use Rattle.thumb_asm.specs.Passes.{values_of};
ghost use Rattle.image_build.specs.Building.{IsLaid};
ghost use Rattle.image_build.specs.Symbols.{shared_symbols};

use crate::layout::Layout;
use app_toml::App;
use std::alloc::Global;
use thumb_asm::Symbols;

/// An application, and the sources of its first tasks that have been accepted. `shared` has the
/// symbols that all sources share.
#[derive(Drop)]
pub struct Builder<'a> {
    pub(crate) alloc: Global,
    pub(crate) app: &'a App,
    pub(crate) layout: Layout,
    pub(crate) shared: Symbols,
    pub(crate) flash: Vec<u8>,
    pub(crate) done: usize,
    ghost laid: { IsLaid (app_of app.now) layout },
    ghost filled: { length flash.items ≡ layout.flash_length },
    ghost indexed: { values_of shared ≡ entry_at (shared_symbols (app_of app.now)) },
}
