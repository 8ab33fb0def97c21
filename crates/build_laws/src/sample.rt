//! Laws about the large sample of a seed. Nothing runs here.
ghost use Rattle.std.specs.Prelude.{◌≡◌, ◌≤◌, ◌<◌, ℕ, None};
ghost use Rattle.text_lines.specs.Text.{lines_of};
ghost use Rattle.thumb_asm.specs.Passes.{size_from};
ghost use Rattle.image_build.specs.Building.{Refuses, source_cause};
ghost use Rattle.image_build.specs.Built.{source_at};
ghost use Rattle.image_build.specs.Layout.{flash_base, flash_needed, ram_needed};
ghost use Rattle.image_build.specs.declared.fault.BuildFault.{BuildFault};
ghost use Rattle.image_build.specs.declared.fault.BuildFault.TheVariants.{Memory};
ghost use Rattle.sample_gen.specs.Sample.{sample_app, sample_sources};

/// The assembler refuses no source of the sample, at the base and with the symbols of its task.
/// Each source takes at most 256 bytes there.
pub fn sources_are_taken()
    ensures accepted { (seed i : ℕ) → i < 32 →
        source_cause (sample_app seed) i (source_at (sample_sources seed) i) ≡ None }
    ensures short { (seed i : ℕ) → i < 32 →
        size_from (flash_base (sample_app seed) i) (lines_of (source_at (sample_sources seed) i)) ≤
        256 }
{}

/// The sample needs all of the board's flash and RAM.
pub fn board_is_full()
    ensures flash { (seed : ℕ) → flash_needed (sample_app seed) ≡ (sample_app seed).flash }
    ensures ram { (seed : ℕ) → ram_needed (sample_app seed) ≡ (sample_app seed).ram }
{}

/// A build of the sample fails only if memory runs out.
pub fn build_is_not_refused()
    ensures { (seed : ℕ) (f : BuildFault) → Refuses (sample_app seed) (sample_sources seed) f →
        f ≡ Memory }
{}
