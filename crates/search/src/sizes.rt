// How many records each layer has that stands: the one before, the one that is being expanded, and the next.
// Stays: three numbers, since the layers lie in the slice that the caller lends.
#[derive(Clone, Copy)]
pub(crate) struct Sizes {
    pub(crate) before: usize,
    pub(crate) present: usize,
    pub(crate) next: usize,
}
