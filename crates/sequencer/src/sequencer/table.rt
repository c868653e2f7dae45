// A list in hand: a table of operations, of which those from `begins` to `ends` are still to be done, and its target.
ghost use Rattle.std.specs.Prelude.{◌≤◌};

pub mod work;

// Stays: an array and two places, since a plan writes into a place of 255, and its front is done one by one.
#[derive(Drop)]
pub struct Table {
    operations: [u16; 255],
    begins: u16,
    ends: u16,
    target: u32,
    ghost order: { begins ≤ ends },
    ghost within: { ends ≤ 255 },
}
