// There is no place for a record.
#[derive(Clone, Copy)]
pub(crate) struct Overfull;
