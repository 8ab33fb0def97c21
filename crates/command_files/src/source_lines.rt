//! Where the instructions and the labels of sources lie, if that is wanted.
ghost use Rattle.std.specs.Prelude.{◌≡◌, ◌<◌, ◌+◌, ◌^◌, OnOk};
ghost use Rattle.text_lines.specs.Text.{lines_of};
ghost use Rattle.thumb_asm.specs.Listed.{insn_lines, labels_of, placed};
ghost use Rattle.command_files.specs.Building.{HasListed, KeepsNone};

use std::alloc::{AllocError, Global};
use thumb_asm::{InsnLine, Label, instruction_lines, label_lines};

/// The lines of each source that are instructions, and the labels of all sources, with their
/// addresses. Nothing is kept if it is not wanted.
#[derive(Drop)]
pub struct SourceLines {
    pub wanted: bool,
    pub lists: Vec<Vec<InsnLine>>,
    pub labels: Vec<Label>,
}

impl SourceLines {
    /// Starts with no source.
    pub fn none(alloc: Global, wanted: bool) -> SourceLines
        ensures wanted { result.wanted ≡ wanted }
        ensures none { KeepsNone result }
    {
        SourceLines {
            wanted,
            lists: Vec::new(alloc),
            labels: Vec::new(alloc),
        }
    }

    /// Adds the lines and labels of a source whose first line is at `base`.
    pub fn add(&mut self, alloc: Global, source: &[u8], base: u32) -> Result<(), AllocError>
        requires { base + 1048576 < 2 ^ 32 }
        ensures { OnOk result (HasListed (insn_lines (placed base (lines_of source.now)))
            (labels_of (placed base (lines_of source.now))) self.old self.new) }
    {
        if self.wanted {
            let lines = instruction_lines(alloc, source, base)?;
            let mut labels = label_lines(alloc, source, base)?;
            self.lists.push(lines)?;
            self.labels.append(&mut labels)?;
        }
        Ok(())
    }
}
