// A line of at most 32 bytes.
ghost use Rattle.std.specs.Prelude.{◌≡◌, ◌≤◌, length};

// Stays: bytes with the end beside them and no `ArrayVec`, since a line can be copied and an `ArrayVec` cannot.
#[derive(Clone, Copy)]
pub struct Line {
    pub(crate) bytes: [u8; 32],
    pub(crate) end: usize,
    ghost long: { length bytes ≡ 32 },
    ghost fits: { end ≤ 32 },
}
