// A leg as a call is asked for it: from where, to where, and the most operations that may be used.
#[derive(Clone, Copy, Default, PartialEq, Eq, Debug)]
pub struct Leg {
    pub start: u32,
    pub target: u32,
    pub bound: u16,
}
