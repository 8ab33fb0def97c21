//! Contents in memory, and their room.
ghost use Rattle.std.specs.Prelude.{◌≤◌, vec_len, vec_capacity};

// Contents, and room for this many bytes in all.
#[derive(Drop)]
pub struct Held {
    pub bytes: Vec<u8>,
    pub room: usize,
    ghost room_held: { room ≤ vec_capacity bytes },
    ghost within: { vec_len bytes ≤ room },
}
