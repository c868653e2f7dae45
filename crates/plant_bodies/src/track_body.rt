// The body of a track: taken apart, and what is wrong with it first.
ghost use Rattle.std.specs.Prelude.{◌≡◌, ◌/◌, false, length, Some, None};
ghost use Rattle.std.specs.Result.{result_err};
ghost use Rattle.track.specs.Fault.{fault};
ghost use Rattle.plant_bodies.specs.TrackRule.{links_in, track_long, TrackSays, track_fault};

use crate::rows::{Row, read_rows};
use arrayvec::ArrayVec;
use numbers::word;
use track::link::{Link, TrackFault};
use track::track::check::{check_counts, check_link};

// The number of stations and the links. One link more than a track can have is read at most, so that too many are told
// from enough.
#[derive(Drop)]
pub struct TrackBody {
    pub stations: u16,
    pub links: ArrayVec<Link, 1025>,
}

#[derive(Clone, Copy, PartialEq, Eq, Debug)]
pub enum TrackBodyFault {
    // not as long as its count of links says
    Length,
    // of the track that it describes
    Track(TrackFault),
}

impl TrackBody {
    // Takes the body of a track apart; none where it is not as long as its count of links says.
    pub fn of(body: &[u8]) -> Option<TrackBody>
        ensures { elim result [ Some t ↦ TrackSays body.now t.stations t.links.items | None ↦ track_long body.now ≡ false ] }
    {
        let [a, b, c, d, rest @ ..] = body else {
            return None;
        };
        let stations = word(*a, *b);
        let count = word(*c, *d);
        let end = 4 * count as usize;
        if rest.len() != end {
            return None;
        }
        let mut links = ArrayVec::new();
        read_rows(&mut links, rest);
        Some(TrackBody { stations, links })
    }
}

// The first fault of the body of a track: its length, then the track's first fault.
pub fn track_fault(body: &[u8]) -> Option<TrackBodyFault>
    ensures { result ≡ track_fault body.now }
{
    let [a, b, c, d, rows @ ..] = body else {
        return Some(TrackBodyFault::Length);
    };
    let (stations, count) = (word(*a, *b), word(*c, *d));
    if rows.len() != 4 * count as usize {
        return Some(TrackBodyFault::Length);
    }
    let fault = check_rows(stations, rows).err()?;
    Some(TrackBodyFault::Track(fault))
}

// The checks of a track whose links are read where they lie, each once, and none past the first fault.
fn check_rows(stations: u16, rows: &[u8]) -> Result<(), TrackFault>
    ensures { result_err result ≡ fault stations (links_in (length rows.now / 4) rows.now) }
{
    let (fours, _) = rows.as_chunks::<4>();
    check_counts(stations, fours.len())?;
    for (row, four) in fours.iter().enumerate() {
        let link = Link::of(*four);
        check_link(stations, link, row as u16)?;
    }
    Ok(())
}
