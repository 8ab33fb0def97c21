//! The programs of the sample's tasks.

ghost use Rattle.std.specs.Prelude.{◌≡◌, IfOk, string_bytes};
ghost use Rattle.sample_gen.specs.Sources.{client_lines, server_lines, supervisor_lines, text_of};

use std::alloc::{AllocError, Global};

/// The program of the supervisor.
pub(crate) fn supervisor_source(alloc: Global) -> Result<String, AllocError>
    ensures { IfOk result (λ s. string_bytes s ≡ text_of supervisor_lines) }
{
    String::from_str(
        alloc,
        "loop: movs r4, #0\nmovs r5, #0\nmovs r6, #1\nmovs r7, #0\nmovs r0, #1\nmov r11, r0\nsvc #0\nmovs r3, #1\nnext: str r3, [sp, #0]\nldr r4, ask\nmov r5, sp\nmovs r6, #4\nadd r7, sp, #16\nmovs r0, #16\nmov r8, r0\nmovs r0, #0\nmov r9, r0\nmov r10, r0\nmov r11, r0\nsvc #0\nldr r0, [sp, #16]\ncmp r0, #2\nbne skip\nmovs r0, #1\nstr r0, [sp, #4]\nldr r4, renew\nmov r5, sp\nmovs r6, #8\nmovs r7, #0\nmov r8, r7\nsvc #0\nskip: adds r3, #1\ncmp r3, #32\nbne next\nb loop\n.align 2\nask: .word 0xffff0001\nrenew: .word 0xffff0002\n",
    )
}

/// The program of a server.
pub(crate) fn server_source(alloc: Global, offset: u32) -> Result<String, AllocError>
    ensures { IfOk result (λ s. string_bytes s ≡ text_of (server_lines offset)) }
{
    format!(in alloc;
        "loop: movs r4, #1\nmovs r5, #1\nmovs r0, #7\nmov r11, r0\nsvc #0\nmov r4, sp\nmovs r5, #16\nmovs r6, #1\nmovs r7, #0\nmovs r0, #1\nmov r11, r0\nsvc #0\nldr r0, kernel\ncmp r5, r0\nbeq loop\nmov r3, r5\nmov r2, r6\ncmp r2, #1\nbeq fetch\ncmp r2, #2\nbeq put\ncmp r2, #3\nbeq refuse\ncmp r2, #4\nbeq stop\nanswer: mov r4, r3\nmovs r5, #0\nmov r6, sp\nmovs r7, #4\nmovs r0, #2\nmov r11, r0\nsvc #0\nb loop\nfetch: movs r0, #4\nb move\nput: movs r0, #5\nmove: mov r11, r0\nmov r4, r3\nmovs r5, #0\nmovs r6, #{offset}\nadd r7, sp, #32\nmovs r0, #16\nmov r8, r0\nsvc #0\nb answer\nrefuse: mov r4, r3\nmovs r5, #0\nmovs r0, #12\nmov r11, r0\nsvc #0\nb loop\nstop: movs r0, #8\nmov r11, r0\nsvc #0\n.align 2\nkernel: .word 0xffff\n"
    )
}

/// The program of a client.
pub(crate) fn client_source(
    alloc: Global,
    server: u32,
    operation: u32,
    size: u32,
    period: u32,
) -> Result<String, AllocError>
    ensures { IfOk result (λ s. string_bytes s ≡ text_of
        (client_lines server operation size period)) }
{
    format!(in alloc;
        "movs r0, #3\nstr r0, [sp, #48]\nadd r0, sp, #64\nstr r0, [sp, #52]\nmovs r0, #32\nstr r0, [sp, #56]\nloop: movs r4, #{server}\nmovs r0, #10\nmov r11, r0\nsvc #0\nlsls r4, r4, #16\nadds r4, #{operation}\nmov r5, sp\nmovs r6, #{size}\nadd r7, sp, #32\nmovs r0, #4\nmov r8, r0\nadd r0, sp, #48\nmov r9, r0\nmovs r0, #1\nmov r10, r0\nmovs r0, #0\nmov r11, r0\nsvc #0\nmovs r0, #9\nmov r11, r0\nsvc #0\nmov r6, r5\nadds r4, #{period}\nmov r5, r4\nmovs r4, #1\nmovs r7, #1\nmovs r0, #3\nmov r11, r0\nsvc #0\nmovs r4, #0\nmovs r5, #0\nmovs r6, #1\nldr r7, clock\nmovs r0, #1\nmov r11, r0\nsvc #0\nb loop\n.align 2\nclock: .word 0x8000ffff\n"
    )
}
