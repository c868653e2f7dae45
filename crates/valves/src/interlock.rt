// An interlock bars `valve` from moving into or out of `position` while the valve `other` stands at `stands`.
#[derive(Clone, Copy, PartialEq, Eq, Debug, Default)]
pub struct Interlock {
    pub valve: u8,
    pub position: u8,
    pub other: u8,
    pub stands: u8,
}
