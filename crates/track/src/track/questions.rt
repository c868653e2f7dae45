// A track as a plant: an operation goes along a link from either end to the other.
ghost use Rattle.std.specs.Prelude.{◌≡◌};
ghost use Rattle.track.specs.Track.{meaning_of, links_of};
ghost use Rattle.track.specs.Laws.{track_lawful};

use crate::track::Track;
use plant::plant::Plant;

impl Plant for Track {
    ghost meaning = { meaning_of };

    ghost lawful = { λ x. track_lawful x.stations (links_of x) x.faultless };

    fn settings(&self) -> u32 {
        u32::from(self.stations)
    }

    fn operations(&self) -> u16 {
        self.count
    }

    fn step(&self, setting: u32, operation: u16) -> Option<u32> {
        let link = self.link(operation)?;
        let one = u32::from(link.one);
        let other = u32::from(link.other);
        if setting == one {
            Some(other)
        } else if setting == other {
            Some(one)
        } else {
            None
        }
    }

    fn reverse(&self, operation: u16) -> u16 {
        operation
    }

    fn estimate(&self, from: u32, to: u32) -> u16 {
        let stations = self.settings();
        if from >= stations || to >= stations || from == to {
            0
        } else {
            1
        }
    }
}
