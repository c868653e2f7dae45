// A track: the links in use stand at the front of an array, and have no fault.
ghost use Rattle.std.specs.Prelude.{◌≡◌, ◌≤◌, false, length, take, is_some};
ghost use Rattle.track.specs.Fault.{fault};

use crate::link::Link;

pub mod check;
pub mod making;
pub mod questions;

#[derive(Clone, Copy)]
pub struct Track {
    stations: u16,
    // Stays: an array with a count beside it, since a track is `Copy` and an `ArrayVec` is not.
    count: u16,
    links: [Link; 1024],
    ghost room: { length links ≡ 1024 },
    ghost used: { count ≤ 1024 },
    ghost faultless: { is_some (fault stations (take count links)) ≡ false },
}
