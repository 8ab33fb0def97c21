//! A law about where runs start. Nothing runs here.

ghost use Rattle.std.specs.Prelude.{List};
ghost use Rattle.kernel_abi.specs.Devices.{DeviceData, AreFresh};
ghost use Rattle.mem_banks.specs.Memory.{AreAllBytes};
ghost use Rattle.image_format.specs.Facts.{Facts};
ghost use Rattle.image_format.specs.ImageData.{ImageData};
ghost use Rattle.run_script.specs.Scripts.{ScriptData};
ghost use Rattle.task_table.specs.kept.Parts.{IsSound};
ghost use Rattle.task_table.specs.model.Sane.{Sane};
ghost use Rattle.board_model.specs.Script.{start_of};
ghost use Rattle.board_core.specs.Opened.{setup_of_image, scenario_of};

/// The start of every run is sane, for each image that is read and for each script, if nothing has
/// come to the devices yet. So what board_model says of runs from a sane start, or of the turns
/// after one, is true of every run.
pub fn the_start_of_every_run_is_sane()
    ensures sound { (p : ImageData) → Facts p → AreAllBytes p.flash → IsSound (setup_of_image p) }
    ensures sane { (p : ImageData) (script : ScriptData) (devices : List DeviceData) → Facts p →
        AreAllBytes p.flash → AreFresh devices →
        Sane (setup_of_image p) (start_of (scenario_of p script devices)) }
{}
