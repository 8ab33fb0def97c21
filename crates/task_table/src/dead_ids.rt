//! What system calls do that name an earlier birth of a task. This is a law: the contract of a
//! function that does nothing.

ghost use Rattle.std.specs.Prelude.{◌≡◌, ◌<◌, ◌≤◌, ℕ, List, [], ◌∷◌, length};
ghost use Rattle.kernel_abi.specs.Faults.{usage_number};
ghost use Rattle.kernel_abi.specs.declared.Usage.TheVariants.{BadReason};
ghost use Rattle.kernel_abi.specs.declared.syscalls.Syscall.TheVariants.{Send, Recv, Reply, BorrowRead, BorrowWrite, BorrowInfo, Post, ReplyFault};
ghost use Rattle.task_table.specs.model.State.{Setup, Turn};
ghost use Rattle.task_table.specs.model.Reading.{task_at};
ghost use Rattle.task_table.specs.model.Rows.{misused, goes_on, goes_on_with};
ghost use Rattle.task_table.specs.model.Sends.{last_reason};
ghost use Rattle.task_table.specs.model.Syscalls.{syscall_made};
ghost use Rattle.task_table.specs.model.DeadIds.{IsCalling, IsDeadId, MaySend, MayReceiveFrom, IsAnsweredAlone, told_dead, recipient, sender, client, lender, asked_lender, posted_to, reason};

/// A system call that names an earlier birth of a task changes only its caller, which goes on. SEND
/// and a closed RECV, if no earlier row decides, the borrows and POST get the dead code with the
/// present generation. REPLY, and REPLY_FAULT with a valid reason, get nothing. (Hubris Reference:
/// task ids and generations.)
pub fn dead_ids_change_nothing_but_the_caller()
    ensures send { (g : Setup) (c : ℕ) (t : Turn) → IsCalling Send c t →
        IsDeadId t.state (recipient t.state c) → MaySend g c t.state →
        syscall_made g c t ≡ told_dead c (recipient t.state c) (0 ∷ []) t }
    ensures recv { (g : Setup) (c : ℕ) (t : Turn) → IsCalling Recv c t →
        IsDeadId t.state (sender t.state c) → MayReceiveFrom g c t.state →
        syscall_made g c t ≡ told_dead c (sender t.state c) (0 ∷ 0 ∷ 0 ∷ 0 ∷ 0 ∷ []) t }
    ensures reply { (g : Setup) (c : ℕ) (t : Turn) → IsCalling Reply c t →
        IsDeadId t.state (client t.state c) → syscall_made g c t ≡ goes_on c t }
    ensures read { (g : Setup) (c : ℕ) (t : Turn) → IsCalling BorrowRead c t →
        IsDeadId t.state (lender t.state c) →
        syscall_made g c t ≡ told_dead c (lender t.state c) (0 ∷ []) t }
    ensures written { (g : Setup) (c : ℕ) (t : Turn) → IsCalling BorrowWrite c t →
        IsDeadId t.state (lender t.state c) →
        syscall_made g c t ≡ told_dead c (lender t.state c) (0 ∷ []) t }
    ensures informed { (g : Setup) (c : ℕ) (t : Turn) → IsCalling BorrowInfo c t →
        IsDeadId t.state (asked_lender t.state c) →
        syscall_made g c t ≡ told_dead c (asked_lender t.state c) (0 ∷ 0 ∷ []) t }
    ensures post { (g : Setup) (c : ℕ) (t : Turn) → IsCalling Post c t →
        IsDeadId t.state (posted_to t.state c) →
        syscall_made g c t ≡ told_dead c (posted_to t.state c) [] t }
    ensures reply_fault { (g : Setup) (c : ℕ) (t : Turn) → IsCalling ReplyFault c t →
        IsDeadId t.state (client t.state c) → reason t.state c ≤ last_reason →
        syscall_made g c t ≡ goes_on c t }
    ensures no_reason { (g : Setup) (c : ℕ) (t : Turn) → IsCalling ReplyFault c t →
        IsDeadId t.state (client t.state c) → last_reason < reason t.state c →
        syscall_made g c t ≡ misused g c (usage_number BadReason) t }
    ensures alone { (c : ℕ) (values : List ℕ) (t : Turn) → c < length t.state.tasks →
        length (task_at t.state c).registers ≡ 16 → length values ≤ 6 →
        IsAnsweredAlone c values t (goes_on_with c values t) }
    ensures past { (c : ℕ) (t : Turn) → c < length t.state.tasks →
        length (task_at t.state c).registers ≡ 16 → IsAnsweredAlone c [] t (goes_on c t) }
{}
