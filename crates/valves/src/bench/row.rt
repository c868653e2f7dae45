// An interlock of a bench.
use crate::interlock::Interlock;

#[derive(Clone, Copy, Default)]
pub(crate) struct Row {
    pub(crate) lock: Interlock,
    // the row of the next interlock of the same valve; the number of interlocks where there is none
    // Stays: linked by their numbers, since there is no heap.
    pub(crate) following: u8,
}
