//! The shape of a statement, by its mnemonic and up to three operands. There is a function for each
//! number and kinds of operands, with an arm for each mnemonic that takes them.

ghost use Rattle.std.specs.Prelude.{◌≡◌, [], option_map};
ghost use Rattle.thumb_asm.specs.Syntax.{shaped, at_sp, keyword, Fixed};
ghost use Rattle.thumb_asm.specs.Views.{shape_of};

mod one_operand;
mod three_operands;
mod two_operands;

use crate::Mnemonic;
use crate::shape::Shape;
use crate::words::is_any_case;
pub(super) use one_operand::one;
pub(super) use three_operands::three;
use thumb_insn::{Insn, Reg};
pub(super) use two_operands::two;

/// No operand.
#[tactic(auto, unfolding(crate::specs::Syntax::shaped, crate::specs::Syntax::expressions))]
pub(super) fn zero<'a>(mnemonic: Mnemonic) -> Option<Shape<'a>>
    ensures { option_map shape_of result ≡ shaped mnemonic [] }
{
    let insn = match mnemonic {
        Mnemonic::Named(value) => Insn::Hint { value },
        Mnemonic::Fence(barrier) => Insn::Fence {
            barrier,
            option: 15,
        },
        _ => return None,
    };
    Some(Shape::Fixed(insn))
}

/// A shape with a register that has to be SP.
fn at_sp(r: Reg, shape: Shape<'_>) -> Shape<'_>
    ensures { shape_of result ≡ at_sp r (shape_of shape.entry) }
{
    if r.number == 13 {
        shape
    } else {
        Shape::Misplaced
    }
}

/// An instruction whose operand is a keyword.
fn keyword<'a>(text: &[u8], word: &[u8], insn: Insn) -> Option<Shape<'a>>
    ensures { option_map shape_of result ≡ keyword text.now word.now (Fixed insn) }
{
    if is_any_case(text, word) {
        Some(Shape::Fixed(insn))
    } else {
        None
    }
}
