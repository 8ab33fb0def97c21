//! A source has at most one assembly, and its length is the sum of its lines' lengths.

ghost use Rattle.std.specs.Prelude.{◌≡◌, ℕ, List, length};
ghost use Rattle.asm_laws.specs.Image.{EachTwo};
ghost use Rattle.asm_laws.specs.Lines.{EachLineHasItsBytes};
ghost use Rattle.thumb_asm.specs.Assembly.{Assembles};
ghost use Rattle.thumb_asm.specs.Meaning.{Env};
ghost use Rattle.thumb_asm.specs.Passes.{size_from};

/// No source has two assemblies. By `Assembles`, the lines, the address of the first line and the
/// given symbols allow only one sequence of bytes (`bytes`) and one address for each label
/// (`labels`). A refused source has no assembly: `Assembles` requires that no line has a cause.
pub fn a_source_has_one_assembly()
    ensures bytes { EachTwo (λ bytes bytes' labels labels'. bytes ≡ bytes') }
    ensures labels { EachTwo (λ bytes bytes' labels labels'. (name : List ℕ) →
        labels name ≡ labels' name) }
{}

/// The number of bytes of an assembly is the sum of what its lines take, each at its address.
pub fn image_length()
    ensures { (lines : List (List ℕ)) (base : ℕ) (given : Env) (bytes : List ℕ) (labels : Env) →
        Assembles lines base given bytes labels → length bytes ≡ size_from base lines }
{}

/// Each line of a source that is assembled has its bytes at its address: the code of its
/// instruction, or its data. The lines are those that `instruction_lines` lists, and all others.
pub fn each_line_has_its_bytes()
    ensures { EachLineHasItsBytes }
{}
