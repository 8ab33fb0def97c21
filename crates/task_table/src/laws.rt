//! Laws of the abstract kernel, each the contract of a function that does nothing.

ghost use Rattle.std.specs.Prelude.{◌≡◌, ◌+◌, ◌*◌, ◌<◌, ◌≤◌, ℕ, true, List, [], ◌++◌, Option, length};
ghost use Rattle.kernel_abi.specs.declared.Fault.{Fault};
ghost use Rattle.kernel_abi.specs.declared.Note.{Note};
ghost use Rattle.kernel_abi.specs.declared.Timer.{Timer};
ghost use Rattle.task_table.specs.declared.Line.{Line};
ghost use Rattle.words_core.specs.declared.Flags.{Flags};
ghost use Rattle.region_check.specs.declared.Right.{Right};
ghost use Rattle.region_check.specs.declared.Right.TheVariants.{Write};
ghost use Rattle.region_check.specs.Rights.{may_copy};
ghost use Rattle.mem_banks.specs.Memory.{Memory, IsWithin, IsWithinRam, AreAllBytes};
ghost use Rattle.task_table.specs.model.State.{Setup, State, Turn, Ground, Read};
ghost use Rattle.task_table.specs.model.Reading.{setup_at, is_ready, best_sender, IsIdle, IsSameAt};
ghost use Rattle.task_table.specs.model.Effects.{changed, noted, looked, with_processor, given, posted, with_timer, with_line, stored, faulted};
ghost use Rattle.task_table.specs.model.Rows.{misused, panicked, timer_set, timer_answered, irq_controlled, irq_answered, received, syscall_noted};
ghost use Rattle.task_table.specs.model.Sends.{sent, replied, reply_faulted, post_made, refreshed};
ghost use Rattle.task_table.specs.model.Borrows.{reading, writing, borrowed, informed};
ghost use Rattle.task_table.specs.model.Requests.{requested};
ghost use Rattle.task_table.specs.model.Syscalls.{syscall_made};
ghost use Rattle.task_table.specs.model.Events.{ticked, interrupted, fed, driven};
ghost use Rattle.task_table.specs.model.Placed.{ArePlaced};
ghost use Rattle.task_table.specs.model.Sane.{Sane, IsCounted};
ghost use Rattle.task_table.specs.model.Counts.{AreWhole, IsSameTime, AreCounts, IsNoted, AreNoted, IsAsReady};
ghost use Rattle.task_table.specs.model.Chain.{Chain};
ghost use Rattle.task_table.specs.model.Step.{Step, CallOutcome};
ghost use Rattle.task_table.specs.model.Grounds.{AreGrounded, AreGranted, AreAlive, AreReached, with_writes};
ghost use Rattle.task_table.specs.model.Ledger.{IsLedger};
ghost use Rattle.task_table.specs.model.Lives.{IsAsNoted, IsFresh, IsClosed, IsSilent};
ghost use Rattle.task_table.specs.kept.Parts.{IsSound};
ghost use Rattle.task_table.specs.model.Start.{start};
ghost use Rattle.task_table.specs.kept.Holds.{Holds};
ghost use Rattle.task_table.specs.declared.kernel.Kernel.{Kernel};

/// Each effect leaves a sane state sane.
pub fn effects_keep_sane()
    ensures noted { (g : Setup) (n : Note) (t : Turn) → Sane g t.state → Sane g (noted n t).state }
    ensures processor { (g : Setup) (i : ℕ) (registers : List ℕ) (flags : Flags) (t : Turn) →
        Sane g t.state → i < length t.state.tasks → AreWhole registers →
        Sane g (with_processor i registers flags t).state }
    ensures stored { (g : Setup) (on : Ground) (at : ℕ) (bytes : List ℕ) (t : Turn) →
        Sane g t.state → AreAllBytes bytes → IsWithinRam t.state.memory at (length bytes) →
        Sane g (stored on at bytes t).state }
    ensures current { (g : Setup) (i : ℕ) (t : Turn) → Sane g t.state → i < length t.state.tasks →
        Sane g (changed (λ s. record s { current = i }) t).state }
    ensures turn { (g : Setup) (n : ℕ) (t : Turn) → Sane g t.state →
        Sane g (changed (λ s. record s { turn = n }) t).state }
    ensures posted { (g : Setup) (i bits : ℕ) (t : Turn) → Sane g t.state →
        i < length t.state.tasks → Sane g (posted i bits t).state }
    ensures faulted { (g : Setup) (i : ℕ) (fault : Fault) (t : Turn) → Sane g t.state →
        i < length t.state.tasks → 1 ≤ fault.number → fault.number ≤ 10 →
        Sane g (faulted g i fault t).state }
{}

/// Each row of a system call leaves a sane state sane.
pub fn rows_keep_sane()
    ensures misused { (g : Setup) (c : ℕ) (usage : ℕ) (t : Turn) → Sane g t.state →
        c < length t.state.tasks → Sane g (misused g c usage t).state }
    ensures panicked { (g : Setup) (c : ℕ) (t : Turn) → Sane g t.state → c < length t.state.tasks →
        Sane g (panicked g c t).state }
    ensures timer_set { (g : Setup) (c : ℕ) (t : Turn) → Sane g t.state → c < length t.state.tasks →
        Sane g (timer_set c t).state }
    ensures timer_answered { (g : Setup) (c : ℕ) (t : Turn) → Sane g t.state →
        c < length t.state.tasks → Sane g (timer_answered c t).state }
    ensures irq_controlled { (g : Setup) (c : ℕ) (t : Turn) → Sane g t.state →
        c < length t.state.tasks → Sane g (irq_controlled g c t).state }
    ensures irq_answered { (g : Setup) (c : ℕ) (t : Turn) → Sane g t.state →
        c < length t.state.tasks → Sane g (irq_answered g c t).state }
    ensures syscall_noted { (g : Setup) (c : ℕ) (t : Turn) → Sane g t.state →
        c < length t.state.tasks → Sane g (syscall_noted c t).state }
    ensures received { (g : Setup) (c : ℕ) (best : Option ℕ) (t : Turn) → Sane g t.state →
        c < length t.state.tasks → is_ready t.state c ≡ true → best ≡ best_sender g t.state c →
        Sane g (received g c best t).state }
    ensures sent { (g : Setup) (c : ℕ) (t : Turn) → Sane g t.state → c < length t.state.tasks →
        is_ready t.state c ≡ true → Sane g (sent g c t).state }
    ensures replied { (g : Setup) (c : ℕ) (t : Turn) → Sane g t.state → c < length t.state.tasks →
        is_ready t.state c ≡ true → Sane g (replied g c t).state }
    ensures reply_faulted { (g : Setup) (c : ℕ) (t : Turn) → Sane g t.state →
        c < length t.state.tasks → is_ready t.state c ≡ true → Sane g (reply_faulted g c t).state }
    ensures post_made { (g : Setup) (c : ℕ) (t : Turn) → Sane g t.state → c < length t.state.tasks →
        is_ready t.state c ≡ true → Sane g (post_made g c t).state }
    ensures refreshed { (g : Setup) (c : ℕ) (t : Turn) → Sane g t.state → c < length t.state.tasks →
        is_ready t.state c ≡ true → Sane g (refreshed g c t).state }
    ensures read { (g : Setup) (c : ℕ) (t : Turn) → Sane g t.state → c < length t.state.tasks →
        is_ready t.state c ≡ true → Sane g (borrowed g reading c t).state }
    ensures written { (g : Setup) (c : ℕ) (t : Turn) → Sane g t.state → c < length t.state.tasks →
        is_ready t.state c ≡ true → Sane g (borrowed g writing c t).state }
    ensures informed { (g : Setup) (c : ℕ) (t : Turn) → Sane g t.state → c < length t.state.tasks →
        is_ready t.state c ≡ true → Sane g (informed g c t).state }
    ensures requested { (g : Setup) (c : ℕ) (t : Turn) → Sane g t.state → c < length t.state.tasks →
        is_ready t.state c ≡ true → Sane g (requested g c t).state }
    ensures syscall_made { (g : Setup) (c : ℕ) (t : Turn) → Sane g t.state →
        c < length t.state.tasks → is_ready t.state c ≡ true → Sane g (syscall_made g c t).state }
{}

/// Each system call does one of three things. It faults its caller, at once or after steps that
/// changed nothing. Or it is a chain of steps that do not fault its caller and restart no task. Or
/// it restarts another task at once, and its caller goes on. This is the only proof that goes
/// through all rows; what holds of each step follows from it.
pub fn syscalls_fault_at_once_or_spare_their_caller()
    ensures { (g : Setup) (c : ℕ) (t : Turn) → Sane g t.state → c < length t.state.tasks →
        is_ready t.state c ≡ true → CallOutcome g t.state c t (syscall_made g c t) }
{}

/// So each system call is a chain of steps, each with the conditions under which it may be done.
pub fn syscalls_are_chains_of_steps()
    ensures { (g : Setup) (c : ℕ) (t : Turn) → Sane g t.state → c < length t.state.tasks →
        is_ready t.state c ≡ true → Chain (Step g t.state c) t (syscall_made g c t) }
{}

/// No system call changes a device.
pub fn syscalls_leave_devices_alone()
    ensures { (g : Setup) (c : ℕ) (t : Turn) → Sane g t.state → c < length t.state.tasks →
        is_ready t.state c ≡ true → (syscall_made g c t).state.devices ≡ t.state.devices }
{}

/// A chain of steps changes devices only by loads from addresses that the chosen task may read, and
/// by stores to addresses that it may write.
pub fn chains_reach_devices_where_they_may()
    ensures { (g : Setup) (s : State) (c : ℕ) (u v : Turn) → ArePlaced g s.memory →
        Chain (Step g s c) u v → AreReached g c u.state.devices v.state.devices }
{}

/// A chain of steps leaves a sane state sane, changes no turn and no time, and makes at most one
/// call. It removes no note. If it adds none, each task is as ready as before. A step makes at most
/// four notes, and a restart two more for each task.
pub fn chains_keep_what_steps_keep()
    ensures sane { (g : Setup) (s : State) (c : ℕ) (u v : Turn) → Chain (Step g s c) u v →
        Sane g u.state → Sane g v.state }
    ensures counts { (g : Setup) (s : State) (c : ℕ) (u v : Turn) → ArePlaced g s.memory →
        Chain (Step g s c) u v → AreCounts s u.state → AreCounts s v.state }
    ensures noted { (g : Setup) (s : State) (c : ℕ) (u v : Turn) → Chain (Step g s c) u v →
        IsNoted u → IsNoted v }
    ensures quiet { (g : Setup) (s : State) (c : ℕ) (u v : Turn) → Chain (Step g s c) u v →
        length v.notes ≤ length u.notes → IsAsReady u.state v.state }
    ensures few { (g : Setup) (s : State) (c : ℕ) (u v : Turn) → Step g s c u v →
        AreNoted (4 + 2 * length u.state.tasks) u v }
{}

/// A chain of steps at the beginning of a turn. Each byte is written on a ground that the chosen
/// task has. What is read of a lease and of its entry is read as memory grants it. Only calls are
/// touched that were open or that the task offers. The writes in order turn the old memory into the
/// new one. A closed call stays closed, and nothing is written on its ground.
pub fn chains_stand_on_their_grounds()
    ensures grounded { (g : Setup) (s : State) (c : ℕ) (u v : Turn) → ArePlaced g s.memory →
        Chain (Step g s c) u v → IsFresh s u → AreGrounded g s c v }
    ensures granted { (g : Setup) (s : State) (c : ℕ) (u v : Turn) → ArePlaced g s.memory →
        Chain (Step g s c) u v → IsFresh s u → AreGranted g s c v }
    ensures alive { (g : Setup) (s : State) (c : ℕ) (u v : Turn) → ArePlaced g s.memory →
        Chain (Step g s c) u v → IsFresh s u → AreAlive s c v }
    ensures written { (g : Setup) (s : State) (c : ℕ) (u v : Turn) → ArePlaced g s.memory →
        Chain (Step g s c) u v → IsFresh s u → v.state.memory ≡ with_writes s.memory v.writes }
    ensures closed { (g : Setup) (s : State) (c k : ℕ) (u v : Turn) → ArePlaced g s.memory →
        Chain (Step g s c) u v → IsFresh s u → IsClosed s k → IsClosed v.state k }
    ensures silent { (g : Setup) (s : State) (c k : ℕ) (u v : Turn) → ArePlaced g s.memory →
        Chain (Step g s c) u v → IsFresh s u → IsClosed s k → IsSilent v k }
{}

/// A chain of steps keeps the agreement between the notes so far and the lives of calls, and from
/// it follows the ledger.
pub fn chains_keep_the_ledger()
    ensures start { (g : Setup) → IsAsNoted [] (start g) }
    ensures as_noted { (g : Setup) (s : State) (c : ℕ) (old : List Note) (u v : Turn) →
        ArePlaced g s.memory → Chain (Step g s c) u v → IsAsNoted (old ++ u.notes) u.state →
        IsAsNoted (old ++ v.notes) v.state }
    ensures ledger { (notes : List Note) (s : State) → IsAsNoted notes s → IsLedger notes s }
{}

/// Each post and each fault is noted.
pub fn posts_and_faults_are_noted()
    ensures posted { (i bits : ℕ) (t : Turn) → IsNoted (posted i bits t) }
    ensures faulted { (g : Setup) (i : ℕ) (fault : Fault) (t : Turn) →
        IsNoted (faulted g i fault t) }
{}

/// A tick, an interrupt, a byte for a device and the lines that devices drive leave a sane state
/// sane.
pub fn events_keep_sane()
    ensures ticked { (g : Setup) (t : Turn) → Sane g t.state → Sane g (ticked t).state }
    ensures interrupted { (g : Setup) (k : ℕ) (t : Turn) → Sane g t.state →
        Sane g (interrupted g k t).state }
    ensures fed { (g : Setup) (device byte : ℕ) (t : Turn) → byte < 256 → Sane g t.state →
        Sane g (fed device byte t).state }
    ensures driven { (g : Setup) (t : Turn) → Sane g t.state → Sane g (driven g t).state }
{}

/// The state at the start of a run of a sound image is sane, and its counts are in order.
pub fn start_is_sane()
    ensures sane { (g : Setup) → IsSound g → Sane g (start g) }
    ensures counted { (g : Setup) → IsCounted (start g) }
{}

/// Effects do not change the turn, the time, the number of tasks or the number of the next call. A
/// system call raises that number by at most one. So the counts are in order after each turn.
pub fn counts_stay_in_order()
    ensures noted { (n : Note) (t : Turn) → IsSameTime t.state (noted n t).state }
    ensures processor { (i : ℕ) (registers : List ℕ) (flags : Flags) (t : Turn) →
        IsSameTime t.state (with_processor i registers flags t).state }
    ensures stored { (on : Ground) (at : ℕ) (bytes : List ℕ) (t : Turn) →
        IsSameTime t.state (stored on at bytes t).state }
    ensures current { (i : ℕ) (t : Turn) →
        IsSameTime t.state (changed (λ s. record s { current = i }) t).state }
    ensures posted { (i bits : ℕ) (t : Turn) → IsSameTime t.state (posted i bits t).state }
    ensures faulted { (g : Setup) (i : ℕ) (fault : Fault) (t : Turn) →
        IsSameTime t.state (faulted g i fault t).state }
    ensures syscall_noted { (c : ℕ) (t : Turn) → IsSameTime t.state (syscall_noted c t).state }
    ensures syscall_made { (g : Setup) (c : ℕ) (t : Turn) → Sane g t.state →
        c < length t.state.tasks → is_ready t.state c ≡ true →
        AreCounts t.state (syscall_made g c t).state }
    ensures joined { (s u v : State) → IsSameTime s u → IsSameTime u v → IsSameTime s v }
    ensures same { (s u : State) → IsSameTime s u → AreCounts s u }
    ensures turn { (s u : State) → IsCounted s → AreCounts s u →
        IsCounted record u { turn = u.turn + 1 } }
{}

/// A ready task waits for nothing. It goes on waiting for nothing if neither the task nor its wait
/// changes: after a note, a store, or the choice of another current task. It also does after
/// results are given, after a post, and after a change of a timer or a line.
pub fn ready_waits_for_nothing()
    ensures idle { (s : State) (i : ℕ) → is_ready s i ≡ true → IsIdle s i }
    ensures ready_same { (i : ℕ) (s u : State) → IsSameAt i s u → is_ready s i ≡ true →
        is_ready u i ≡ true }
    ensures idle_same { (i : ℕ) (s u : State) → IsSameAt i s u → IsIdle s i → IsIdle u i }
    ensures noted { (j : ℕ) (n : Note) (t : Turn) → IsSameAt j t.state (noted n t).state }
    ensures stored { (j : ℕ) (on : Ground) (at : ℕ) (bytes : List ℕ) (t : Turn) →
        IsSameAt j t.state (stored on at bytes t).state }
    ensures current { (j i : ℕ) (t : Turn) →
        IsSameAt j t.state (changed (λ s. record s { current = i }) t).state }
    ensures given { (i j : ℕ) (values : List ℕ) (t : Turn) → IsIdle t.state i →
        IsIdle (given j values t).state i }
    ensures posted { (i j bits : ℕ) (t : Turn) → IsIdle t.state i →
        IsIdle (posted j bits t).state i }
    ensures timer { (i j : ℕ) (timer : Option Timer) (t : Turn) → IsIdle t.state i →
        IsIdle (with_timer j timer t).state i }
    ensures line { (i k : ℕ) (line : Line) (t : Turn) → IsIdle t.state i →
        IsIdle (with_line k line t).state i }
{}

/// The bytes of a region that is not a device lie in flash or RAM, and in RAM if they may be
/// written. Consecutive bytes that all lie in memory lie in one of the two.
pub fn given_bytes_lie_in_memory()
    ensures byte { (g : Setup) (m : Memory) (i : ℕ) (right : Right) (a : ℕ) → ArePlaced g m →
        may_copy (setup_at g i).regions right a ≡ true → IsWithin m a 1 }
    ensures ram_byte { (g : Setup) (m : Memory) (i : ℕ) (a : ℕ) → ArePlaced g m →
        may_copy (setup_at g i).regions Write a ≡ true → IsWithinRam m a 1 }
    ensures range { (m : Memory) (base n : ℕ) → length m.flash ≤ 1048576 →
        ((a : ℕ) → base ≤ a → a < base + n → IsWithin m a 1) → IsWithin m base n }
    ensures ram_range { (m : Memory) (base n : ℕ) →
        ((a : ℕ) → base ≤ a → a < base + n → IsWithinRam m a 1) → IsWithinRam m base n }
{}

/// The kernel does not keep the number of the turn; the board does.
pub fn turns_are_not_kept()
    ensures { (g : Setup) (k : Kernel) (t : Turn) (n : ℕ) → Holds g k t →
        Holds g k (changed (λ s. record s { turn = n }) t) }
{}

/// The kernel does not keep what was read.
pub fn reads_are_not_kept()
    ensures { (g : Setup) (k : Kernel) (t : Turn) (r : Read) → Holds g k t →
        Holds g k (looked r t) }
{}
