//! Tasks whose calls are a table, with eight words for each call, for r4 to r11. If the last word
//! is 255, the table begins again. If it is an address, the first four words are stored there.

/// How both begin: the words of a call.
pub const FRONT: &str = "first:  adr r0, rows
next:   ldm r0!, {r4, r5, r6, r7}
        ldm r0!, {r1, r2, r3}
        mov r8, r1
        mov r9, r2
        mov r10, r3
        ldm r0!, {r1}
        mov r11, r1
        cmp r1, #255
        beq first
        bhi put
";

/// The call of a player.
pub const PLAYER: &str = "        svc #0
        b next
";

/// The call of a server. It names the task whose message it received last, not the table's first
/// word.
pub const SERVER: &str = "        cmp r1, #1
        beq take
        mov r4, r12
        svc #0
        b next
take:   svc #0
        mov r12, r5
        b next
";

/// How both end: what is stored, and the table's place.
pub const END: &str = "put:    stm r1!, {r4, r5, r6, r7}
        b next
        .align 2
rows:
";
