// A record of a plan's layers: a setting, and the relay, a setting on the way to it. Laid out as in C, so that a caller in C
// can lend such records.
#[repr(C)]
#[derive(Clone, Copy, Default, PartialEq, Eq, Debug)]
pub struct Relayed {
    pub setting: u32,
    pub relay: u32,
}
