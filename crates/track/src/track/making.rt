// Makes a track, or says what is wrong with it, and looks a link up.
ghost use Rattle.std.specs.Prelude.{◌≡◌};
ghost use Rattle.std.specs.List.{slice_get};
ghost use Rattle.track.specs.Track.{Makes, links_of};

use crate::link::{Link, TrackFault};
use crate::track::Track;
use crate::track::check::{LINKS, check};

impl Track {
    // The track of these stations and links, or the first fault: of the number of stations, of the number of links, then
    // of the links row by row.
    pub fn new(stations: u16, links: &[Link]) -> Result<Track, TrackFault>
        ensures { Makes stations links.now result }
    {
        check(stations, links)?;
        let mut held = [Link::default(); LINKS];
        held[..links.len()].copy_from_slice(links);
        Ok(Track {
            stations,
            count: links.len() as u16,
            links: held,
        })
    }

    // The link that the operation goes along. Out of range, none.
    pub fn link(&self, operation: u16) -> Option<Link>
        ensures { result ≡ slice_get (links_of self.now) operation }
    {
        self.links[..self.count as usize]
            .get(operation as usize)
            .copied()
    }
}
