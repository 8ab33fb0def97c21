//! Laws of the board. Each is the contract of a function that does nothing.

ghost use Rattle.std.specs.Prelude.{◌≡◌, ◌≢◌, ◌+◌, ◌%◌, ◌<◌, ◌≤◌, ℕ, true, List, [], Option, Some, None, length, fold};
ghost use Rattle.kernel_abi.specs.declared.Fault.{Fault};
ghost use Rattle.kernel_abi.specs.declared.Ending.{Ending};
ghost use Rattle.kernel_abi.specs.declared.Note.{Note};
ghost use Rattle.run_script.specs.declared.events.Event.{Event};
ghost use Rattle.run_script.specs.declared.events.Event.TheVariants.{Feed};
ghost use Rattle.run_script.specs.Facts.{Facts};
ghost use Rattle.run_script.specs.Scripts.{ScriptData, IsNext, events_of};
ghost use Rattle.thumb_insn.specs.declared.Insn.{Insn};
ghost use Rattle.thumb_insn.specs.Range.{IsCoded};
ghost use Rattle.thumb_exec.specs.Effect.{Move, Trap};
ghost use Rattle.task_table.specs.model.State.{Setup, State, Turn};
ghost use Rattle.task_table.specs.model.Reading.{chosen, is_ready};
ghost use Rattle.task_table.specs.model.Events.{fed};
ghost use Rattle.task_table.specs.model.Start.{begun};
ghost use Rattle.task_table.specs.model.Sane.{Sane, IsCounted};
ghost use Rattle.task_table.specs.model.Chain.{Chain};
ghost use Rattle.task_table.specs.model.Grounds.{AreReached};
ghost use Rattle.task_table.specs.model.Lives.{IsClosed};
ghost use Rattle.task_table.specs.model.Step.{Step};
ghost use Rattle.board_model.specs.declared.outcomes.Level.{Level as NoteLevel};
ghost use Rattle.board_model.specs.Script.{Scenario, start_of};
ghost use Rattle.board_model.specs.Asked.{AreAnswered};
ghost use Rattle.board_model.specs.Turn.{effect_of, moved, noted_at, stepped, happened, after_events, with_current, turn_of, turn};
ghost use Rattle.board_model.specs.Faults.{IsFaulting, IsSameButForFault, AreEntries};
ghost use Rattle.board_model.specs.LonerTurns.{IsOwnTurn};
ghost use Rattle.board_model.specs.DeadCalls.{IsDeadTurn, NamesDead, TouchesNoMemory};
ghost use Rattle.board_model.specs.Run.{is_down, end_at, ending, run, turn_after, state_after};
ghost use Rattle.board_model.specs.Lifetimes.{IsUnused, IsGroundedTurn, ChangesOnGrounds, ClosesIn, IsLedgerOfRun, IsOfTurns, devices_after};

/// The turn of the chosen task is a chain of steps, from the point where the task is the current
/// one: those of its instruction or of its system call's row, and the notes besides.
pub fn turns_are_chains_of_steps()
    ensures { (level : NoteLevel) (g : Setup) (c : ℕ) (t : Turn) → Sane g t.state →
        chosen g t.state ≡ Some c → Chain (Step g (with_current c t).state c) (with_current c t)
        (turn_of level g (Some c) t) }
{}

/// The events of a turn, an instruction of a ready task, and the whole turn keep a sane state sane.
pub fn turns_keep_sane()
    ensures events { (x : Scenario) (s : State) → Sane x.setup s →
        Sane x.setup (after_events x s).state }
    ensures stepped { (level : NoteLevel) (g : Setup) (c : ℕ) (t : Turn) → Sane g t.state →
        c < length t.state.tasks → is_ready t.state c ≡ true → Sane g (stepped level g c t).state }
    ensures turn { (level : NoteLevel) (x : Scenario) (s : State) → Sane x.setup s →
        Sane x.setup (turn level x s).state }
{}

/// The chosen task is ready, and it exists.
pub fn who_is_chosen_is_ready()
    ensures ready { (g : Setup) (s : State) (c : ℕ) → Sane g s → chosen g s ≡ Some c →
        is_ready s c ≡ true }
    ensures inside { (g : Setup) (s : State) (c : ℕ) → Sane g s → chosen g s ≡ Some c →
        c < length s.tasks }
{}

/// A turn counts itself, and each of its events changes the time by at most a tick. So the counts
/// are in order after each turn of at most nine events. Each turn of a script that is read has at
/// most nine.
pub fn turns_keep_counts_in_order()
    ensures turn { (level : NoteLevel) (x : Scenario) (s : State) → Sane x.setup s →
        (turn level x s).state.turn ≡ s.turn + 1 }
    ensures now { (g : Setup) (events : List Event) (t : Turn) →
        (fold (happened g) t events).state.now ≤ t.state.now + length events }
    ensures counted { (level : NoteLevel) (x : Scenario) (s : State) → Sane x.setup s →
        length (events_of x.script s.turn) ≤ 9 → IsCounted s → IsCounted (turn level x s).state }
    ensures of_scripts { (level : NoteLevel) (x : Scenario) (s : State) → Sane x.setup s →
        Facts x.script → IsCounted s → IsCounted (turn level x s).state }
{}

/// So a run keeps its counts in order if no turn of its script has more than nine events, which is
/// true of a script that is read. The counts are in order at the start. A run also keeps the length
/// of the RAM.
pub fn runs_keep_counts_in_order()
    ensures counted { (level : NoteLevel) (x : Scenario) (n : ℕ) (s : State) → Sane x.setup s →
        ((turn : ℕ) → length (events_of x.script turn) ≤ 9) → IsCounted s →
        IsCounted (run level x n s).last }
    ensures of_scripts { (level : NoteLevel) (x : Scenario) (n : ℕ) (s : State) → Sane x.setup s →
        Facts x.script → IsCounted s → IsCounted (run level x n s).last }
    ensures start { (x : Scenario) → IsCounted (start_of x) }
    ensures ram { (level : NoteLevel) (x : Scenario) (n : ℕ) (s : State) → Sane x.setup s →
        length (run level x n s).last.memory.ram ≡ length s.memory.ram }
{}

/// A turn that notes nothing after its events does not change the choice. The chosen task is the
/// one after the events, and the supervisor is faulted exactly if it was faulted then.
pub fn turns_without_notes_keep_the_choice()
    ensures next { (level : NoteLevel) (x : Scenario) (s : State) → Sane x.setup s →
        length (turn level x s).notes ≤ length (after_events x s).notes →
        chosen x.setup (turn level x s).state ≡ chosen x.setup (after_events x s).state }
    ensures down { (level : NoteLevel) (x : Scenario) (s : State) → Sane x.setup s →
        length (turn level x s).notes ≤ length (after_events x s).notes →
        is_down (turn level x s).state ≡ is_down (after_events x s).state }
{}

/// A byte that is put into a device does not change the choice. Each task is as ready as before,
/// the chosen task is the same, and the supervisor is faulted exactly if it was faulted before. If
/// no enabled line is asked for then, nothing more happens as the byte comes.
pub fn bytes_for_devices_keep_the_choice()
    ensures ready { (device byte i : ℕ) (t : Turn) →
        is_ready (fed device byte t).state i ≡ is_ready t.state i }
    ensures next { (g : Setup) (device byte : ℕ) (t : Turn) →
        chosen g (fed device byte t).state ≡ chosen g t.state }
    ensures down { (device byte : ℕ) (t : Turn) →
        is_down (fed device byte t).state ≡ is_down t.state }
    ensures unasked { (g : Setup) (device byte : ℕ) (t : Turn) →
        AreAnswered g (fed device (byte % 256) t).state →
        happened g t (Feed device byte) ≡ fed device (byte % 256) t }
{}

/// A turn writes only on its grounds. It touches only calls that are open or that it offers, and no
/// closed ones. (Hubris Reference: IPC, leases.)
pub fn turns_stand_on_their_grounds()
    ensures { (level : NoteLevel) (x : Scenario) (s : State) → Sane x.setup s →
        IsGroundedTurn level x s }
{}

/// A turn changes devices only at addresses that the chosen task may read or write. Before that,
/// each byte that comes from outside changes its own device. An idle turn changes no device.
pub fn turns_reach_devices_where_they_may()
    ensures reached { (level : NoteLevel) (x : Scenario) (s : State) (c : ℕ) → Sane x.setup s →
        IsOwnTurn x c s → AreReached x.setup c (after_events x s).state.devices
        (turn level x s).state.devices }
    ensures idle { (level : NoteLevel) (x : Scenario) (s : State) →
        chosen x.setup (after_events x s).state ≡ None →
        (turn level x s).state.devices ≡ (after_events x s).state.devices }
    ensures fed { (x : Scenario) (s : State) →
        (after_events x s).state.devices ≡ fold devices_after s.devices
        (events_of x.script s.turn) }
{}

/// The notes of a run from the start account for each call. It is offered once, taken at most once
/// and closed at most once, in this order. It is open at the end exactly if it was offered and not
/// closed.
pub fn runs_keep_a_ledger()
    ensures { (level : NoteLevel) (x : Scenario) (n : ℕ) → Sane x.setup (start_of x) →
        IsLedgerOfRun level x n }
{}

/// A run consists of its first turns, one after the other, as many as it makes. Its last state is
/// the one that these reach, and its notes are theirs. So what is true of each turn after a state
/// is true of each turn of its runs.
pub fn runs_are_turns_one_after_the_other()
    ensures { (level : NoteLevel) (x : Scenario) (n : ℕ) (s : State) → IsOfTurns level x n s }
{}

/// Each byte that a run changes lies on a ground. If a byte of memory differs before and after a
/// turn of a run, a task was chosen in that turn, and it may change this byte. The byte is in one
/// of its own regions, in the buffer of a task that listens and takes what it sends in this turn,
/// or in the reply buffer or a writable lease of a call that it serves. The client of that call
/// still waits for it, and both tasks are of the births that they had when the call was made.
/// (Hubris Reference: IPC, leases.)
pub fn each_byte_that_a_run_changes_lies_on_a_ground()
    ensures { (level : NoteLevel) (x : Scenario) (n : ℕ) (s : State) → Sane x.setup s →
        ChangesOnGrounds level x (state_after level x n s) }
{}

/// A closed call moves no byte. In a run from the start, take the turn that notes that a call is
/// closed. From the next turn on, no byte is written on the call's ground, none is read for it, and
/// no task takes it or borrows from it. The same holds from any state in which a call is closed.
/// (Hubris Reference: leases.)
pub fn a_closed_call_moves_no_byte()
    ensures noted { (level : NoteLevel) (x : Scenario) (n m k : ℕ) (ending : Ending) →
        Sane x.setup (start_of x) → ClosesIn level x n k ending → n < m →
        IsUnused (turn_after level x m (start_of x)) k }
    ensures closed { (level : NoteLevel) (x : Scenario) (n k : ℕ) (s : State) → Sane x.setup s →
        IsClosed s k → IsUnused (turn_after level x n s) k × IsClosed (state_after level x n s) k }
{}

/// A fault changes nothing else. If an instruction or a system call makes the chosen task fault,
/// memory, the devices and all the task's registers and flags are the same after the turn as after
/// its events. Nothing was written for another task, and only entries of lease tables were read of
/// one. Of the other tasks only task 0 changes: it is posted its fault bits. (Hubris Reference:
/// supervision; that a refused instruction or system call takes no effect is docs/FORMATS.md.)
pub fn faults_change_nothing_else()
    ensures state { (level : NoteLevel) (x : Scenario) (s : State) (c : ℕ) → Sane x.setup s →
        IsFaulting level x s c → IsSameButForFault x.setup c (after_events x s).state
        (turn level x s).state }
    ensures writes { (level : NoteLevel) (x : Scenario) (s : State) (c : ℕ) → Sane x.setup s →
        IsFaulting level x s c → (turn level x s).writes ≡ [] }
    ensures reads { (level : NoteLevel) (x : Scenario) (s : State) (c : ℕ) → Sane x.setup s →
        IsFaulting level x s c → AreEntries (turn level x s).reads }
{}

/// If the chosen task makes a system call that names an earlier birth of a task, the turn only
/// gives the task its answer and moves it past the call. SEND and a closed RECV, if no earlier row
/// decides, the borrows and POST get the dead code with the present generation. REPLY and
/// REPLY_FAULT get no answer. Nothing was written, and nothing was read for another task.
/// REFRESH_TASK_ID gets the id of the present birth, and REPLY_FAULT with a reason above 5 makes
/// the task fault. (Hubris Reference: task ids and generations.)
pub fn turns_with_dead_ids_change_their_caller_alone()
    ensures { (level : NoteLevel) (x : Scenario) (s : State) → Sane x.setup s →
        IsDeadTurn level x s }
{}

/// A dead id touches no memory. Take any turn of a run in which a task makes a system call that
/// names an earlier birth of a task. Whether the call is answered, is refused or gets a
/// notification first: memory is as before, and nothing was written. (Hubris Reference: task ids
/// and generations.)
pub fn an_outdated_id_touches_no_memory()
    ensures { (level : NoteLevel) (x : Scenario) (n c : ℕ) (s : State) → Sane x.setup s →
        NamesDead x (state_after level x n s) c →
        TouchesNoMemory level x (state_after level x n s) }
{}

/// The moves of an instruction change only the memory and the devices of a state. What is noted
/// changes neither.
pub fn moves_change_memory_and_devices_alone()
    ensures moves { (moves : List Move) (t : Turn) →
        (fold moved t moves).state ≡ record t.state {
          memory = (fold moved t moves).state.memory;
          devices = (fold moved t moves).state.devices;
        } }
    ensures noted_at { (level : NoteLevel) (n : Note) (t : Turn) →
        (noted_at level n t).state ≡ t.state }
{}

/// The fault of an instruction that has a code has a number from 1 to 10.
pub fn faults_of_instructions_are_known()
    ensures from_one { (g : Setup) (t : Turn) (insn : Insn) (fault : Fault) → Sane g t.state →
        IsCoded insn → effect_of g t.state.current insn t ≡ Trap fault → 1 ≤ fault.number }
    ensures to_ten { (g : Setup) (t : Turn) (insn : Insn) (fault : Fault) → Sane g t.state →
        IsCoded insn → effect_of g t.state.current insn t ≡ Trap fault → fault.number ≤ 10 }
{}

/// A turn in which nothing is due has no events, so it begins in the state after them. What was due
/// later still is.
pub fn turns_without_events_begin_at_once()
    ensures none { (script : ScriptData) (turn : ℕ) (due : Option ℕ) → turn < 1000000000 →
        IsNext script turn due → due ≢ Some turn → events_of script turn ≡ [] }
    ensures later { (script : ScriptData) (turn : ℕ) (due : Option ℕ) → IsNext script turn due →
        due ≢ Some turn → IsNext script (turn + 1) due }
    ensures begun { (x : Scenario) (s : State) → events_of x.script s.turn ≡ [] →
        begun s ≡ after_events x s }
{}

/// As long as turns are left, the bound does not end a run.
pub fn turns_left_end_no_run()
    ensures { (x : Scenario) (s : State) (left : ℕ) → 0 < left → end_at x s ≡ ending x left s }
{}
