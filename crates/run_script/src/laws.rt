//! A law of scripts and their texts.

ghost use Rattle.std.specs.Prelude.{◌≡◌, Ok};
ghost use Rattle.run_script.specs.Facts.{Facts};
ghost use Rattle.run_script.specs.Scripts.{ScriptData, script_or_fault};
ghost use Rattle.run_script.specs.Texts.{script_text};

/// The text of a script is read as that script.
pub fn script_text_is_read()
    ensures { (script : ScriptData) → Facts script →
        script_or_fault (script_text script) ≡ Ok script }
{}
