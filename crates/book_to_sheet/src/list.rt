// A list with its count, in a place of its own.
ghost use Rattle.std.specs.Prelude.{◌≤◌};

// The list stands at the front of its place.
// Stays: a place with the length beside it, since a plan writes into a place of 255; an `ArrayVec` would be a copy of it.
#[derive(Clone, Copy)]
pub(crate) struct List {
    pub(crate) count: u64,
    pub(crate) length: u16,
    pub(crate) place: [u16; 255],
    ghost fits: { length ≤ 255 },
}
