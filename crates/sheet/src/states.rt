// The three states of a sheet, as plain numbers; the buffer is passed at each call.
ghost use Rattle.std.specs.Prelude.{◌+◌, ◌*◌, ◌≤◌};

// A sheet of which nothing is written yet.
#[derive(Drop)]
pub struct EmptySheet {}

// A sheet whose head stands and that takes bodies.
// Stays: plain numbers, since the buffer is the caller's and is passed at each call.
#[derive(Drop)]
pub struct OpenSheet {
    // how many bodies it is to have, and how many it has
    pub(crate) declared: u8,
    pub(crate) filled: u8,
    // how many bytes of the buffer it takes so far
    pub(crate) end: usize,
    ghost few: { (declared ≤ 64) × (filled ≤ declared) },
    ghost room: { (2 + 4 * declared ≤ end) × (end ≤ 2 + 4 * declared + 520 * filled) },
}

// A sheet that is complete.
#[derive(Drop)]
pub struct ClosedSheet {
    // how many bytes of the buffer it takes
    pub(crate) length: usize,
}

// A sheet that could not be closed, and why.
#[derive(Drop)]
pub struct NotClosed {
    pub sheet: OpenSheet,
    pub refusal: crate::refusal::SheetRefusal,
}
