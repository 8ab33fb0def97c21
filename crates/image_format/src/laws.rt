//! Laws of both spellings. Nothing runs here.

ghost use Rattle.std.specs.Prelude.{◌≡◌, ℕ, List, Ok};
ghost use Rattle.image_format.specs.ImageData.{AreBytes, ImageData, Sound, Spells, SpellsFirst, image_or_fault, spelling};

/// Bytes spell at most one image, in either form.
pub fn bytes_spell_one_image()
    ensures { (p q : ImageData) (bytes : List ℕ) → Spells p bytes → Spells q bytes → p ≡ q }
{}

/// If bytes of the first form spell an image, the spelling of this image in the second form spells
/// it and no other image.
pub fn one_spelling()
    ensures { (p : ImageData) (bytes : List ℕ) → SpellsFirst p bytes → Spells p (spelling p)
        × ((q : ImageData) → Spells q (spelling p) → q ≡ p) }
{}

/// Bytes are accepted exactly if they spell a sound image, and then they are read as that image.
pub fn accepted_bytes_spell_a_sound_image()
    ensures spelled { (p : ImageData) (bytes : List ℕ) → AreBytes bytes →
        image_or_fault bytes ≡ Ok p → Spells p bytes }
    ensures sound { (p : ImageData) (bytes : List ℕ) → image_or_fault bytes ≡ Ok p → Sound p }
    ensures accepted { (p : ImageData) (bytes : List ℕ) → Spells p bytes → Sound p →
        image_or_fault bytes ≡ Ok p }
{}
