//! Laws about the text of a run's last state and memory. Nothing runs here.

ghost use Rattle.std.specs.Prelude.{◌≡◌, ℕ, List};
ghost use Rattle.std.specs.List.{flat_map};
ghost use Rattle.region_check.specs.declared.Region.{Region};
ghost use Rattle.image_format.specs.ImageData.{ImageData};
ghost use Rattle.image_format.specs.Facts.{Facts};
ghost use Rattle.task_table.specs.model.State.{Setup, State};
ghost use Rattle.task_table.specs.model.Sane.{Sane};
ghost use Rattle.board_model.specs.declared.outcomes.End.{End as Ending};
ghost use Rattle.board_model.specs.declared.outcomes.Level.{Level as NoteLevel};
ghost use Rattle.board_model.specs.Alike.{reduced};
ghost use Rattle.board_model.specs.Run.{run};
ghost use Rattle.board_model.specs.Script.{Scenario};
ghost use Rattle.board_core.specs.Opened.{setup_of_image};
ghost use Rattle.board_run.specs.MemoryText.{memory_text, region_text};
ghost use Rattle.board_run.specs.Regions.{HasRamRegions, ListsRam};
ghost use Rattle.board_run.specs.Text.{end_text, trace_text};

/// The memory text of a state has each region of RAM once, by ascending base (docs/FORMATS.md,
/// Memories). It consists of the texts of the regions in a list, which has all of them and is the
/// same for every state. The law is about setups in which regions in RAM begin at multiples of 256,
/// and two that begin at the same address have the same size. The setup of every image is one.
pub fn memories_have_each_region_once()
    ensures images { (p : ImageData) → Facts p → HasRamRegions (setup_of_image p) }
    ensures once { (g : Setup) → HasRamRegions g → (rs : List Region) × ListsRam g rs
        × ((s : State) → memory_text g s ≡ flat_map (region_text s.memory) rs) }
{}

/// The text of a state at the end of a run depends on births only modulo 64. A task's lines have
/// its generation, and no birth of what it waits for; the lines of memory have no births. So the
/// runs from a sane state and from the same state with its births modulo 64 have the same text, and
/// the same text of their memories. (docs/FORMATS.md, Trace and Memories.)
pub fn generations_decide_what_is_told()
    ensures end { (end : Ending) (s : State) → end_text end (reduced s) ≡ end_text end s }
    ensures memory { (g : Setup) (s : State) → memory_text g (reduced s) ≡ memory_text g s }
    ensures text { (level : NoteLevel) (x : Scenario) (n : ℕ) (s : State) → Sane x.setup s →
        trace_text (run level x n (reduced s)) ≡ trace_text (run level x n s) }
    ensures last { (level : NoteLevel) (x : Scenario) (n : ℕ) (s : State) → Sane x.setup s →
        memory_text x.setup (run level x n (reduced s)).last ≡ memory_text x.setup
        (run level x n s).last }
{}
