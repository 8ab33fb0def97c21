//! Laws about the definitions of the text of instructions and of the assembler's language. Nothing
//! runs here.
//!
//! - The text of an instruction is read as that instruction (`text_is_read`).
//! - No source has two assemblies (`a_source_has_one_assembly`).
//! - An assembly has as many bytes as its lines take (`image_length`).
//! - Each line has its bytes at its address (`each_line_has_its_bytes`).
#![tactic(auto)]

mod image;

ghost use Rattle.std.specs.Prelude.{ℕ};
ghost use Rattle.thumb_insn.specs.Range.{IsCoded};
ghost use Rattle.thumb_insn.specs.declared.Insn.{Insn as Instruction};
ghost use Rattle.asm_laws.specs.Reading.{HasTarget, IsRead, IsSpelled, IsAccepted, IsAssembled};

pub use image::{a_source_has_one_assembly, each_line_has_its_bytes, image_length};

/// The text of an instruction at an address, as `Insn::text` writes it, is a line that the
/// assembler's definitions read as this very instruction at that address, whatever values names
/// have. This holds for every instruction that has a code in the table. Its target has to be an
/// address too (the text shows any other target modulo 2^32). `spelled` and `accepted` are about
/// the line in any source, `assembled` is about a source of this line alone.
pub fn text_is_read()
    ensures read { (i : Instruction) (at : ℕ) → IsCoded i → HasTarget i at → IsRead i at }
    ensures spelled { (i : Instruction) (at : ℕ) → IsCoded i → HasTarget i at → IsSpelled i at }
    ensures accepted { (i : Instruction) (at : ℕ) → IsCoded i → HasTarget i at → IsAccepted i at }
    ensures assembled { (i : Instruction) (at : ℕ) → IsCoded i → HasTarget i at → IsAssembled i at }
{}
