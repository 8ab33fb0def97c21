//! Laws about the definitions of the program's verdicts. Nothing runs here.

ghost use Rattle.std.specs.Prelude.{◌≡◌, ◌≢◌, ◌↔◌, ℕ, List, ◌++◌, Option, Some, None};
ghost use Rattle.kernel_abi.specs.Devices.{DeviceData};
ghost use Rattle.board_model.specs.Run.{run};
ghost use Rattle.board_model.specs.Script.{start_of};
ghost use Rattle.board_run.specs.Text.{trace_text};
ghost use Rattle.command_line.specs.CommandLine.{build as build_job, run as run_job, go as go_job};
ghost use Rattle.command_line.specs.declared.job.Detail.{Detail};
ghost use Rattle.trace_cli.specs.Words.{job_in};
ghost use Rattle.command_files.specs.Contents.{image_refusal, script_refusal, image_data_of, scenario_of};
ghost use Rattle.command_files.specs.Verdict.{Verdict, line_alone, status_of};
ghost use Rattle.trace_cli.specs.Verdict.{IsVerdict};
ghost use Rattle.board_commands.specs.Verdict.{level_of, memory_if};
ghost use Rattle.command_files.specs.Answer.{HasPut};

/// Words that ask for `run` of an image with a script, both seen and accepted, have exactly one
/// verdict. Its text is the trace of the abstract kernel's run from the start of that image, with
/// the events of that script, of at most this many turns, and with `--mem` the memory of its last
/// state. Its status is 0, or 6 if the run ended because the supervisor faulted.
pub fn run_tells_the_abstract_run()
    ensures { (devices : List DeviceData) (words : List (List ℕ)) (seen : List ℕ → Option (List ℕ))
        (image_name script_name image script : List ℕ) (n : ℕ) (detail : Detail) (v : Verdict)
        → job_in words ≡ Some (run_job image_name script_name n detail) →
        seen image_name ≡ Some image → seen script_name ≡ Some script
        → image_refusal image ≡ None → script_refusal script ≡ None
        → let x = scenario_of (image_data_of image) script devices in
        let r = run (level_of detail) x n (start_of x) in
        IsVerdict devices words seen v ↔
        (v ≡ line_alone (status_of r.end)
        (trace_text r ++ memory_if detail.memory x.setup r.last)) }
{}

/// `build` and then `run` write what `go` writes. If an application was built and put under OUT,
/// and nothing else changed, the run of OUT with a script of another name has the verdict of `go`.
pub fn build_then_run_is_go()
    ensures { (devices : List DeviceData) (build_words go_words run_words : List (List ℕ))
        (seen seen' : List ℕ → Option (List ℕ)) (app out script : List ℕ) (n : ℕ) (detail : Detail)
        (b v w : Verdict)
        → job_in build_words ≡ Some (build_job app out) →
        job_in go_words ≡ Some (go_job app script n detail) →
        job_in run_words ≡ Some (run_job out script n detail)
        → script ≢ out → IsVerdict devices build_words seen b → b.status ≡ 0 →
        HasPut seen seen' b.put
        → IsVerdict devices go_words seen v → IsVerdict devices run_words seen' w → v ≡ w }
{}
