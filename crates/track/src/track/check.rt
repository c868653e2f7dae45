// Checks the data of a track without keeping one.
ghost use Rattle.std.specs.Prelude.{◌≡◌, ◌↔◌, None};
ghost use Rattle.std.specs.Result.{result_err};
ghost use Rattle.track.specs.Fault.{fault, counts_fault, row_fault};
ghost use Rattle.track.specs.Data.{TrackData};

use crate::link::{Link, TrackFault};

// The most stations and links that a track has.
const STATIONS: u16 = 512;

pub(crate) const LINKS: usize = 1024;

// The first fault of the data, in the order of the checks; none exactly where they make a track.
pub fn first_fault(stations: u16, links: &[Link]) -> Option<TrackFault>
    ensures exact { result ≡ fault stations links.now }
    ensures none { (result ≡ None) ↔ TrackData stations links.now }
{
    check(stations, links).err()
}

pub(crate) fn check(stations: u16, links: &[Link]) -> Result<(), TrackFault>
    ensures { result_err result ≡ fault stations links.now }
{
    check_counts(stations, links.len())?;
    for (row, link) in links.iter().enumerate() {
        check_link(stations, *link, row as u16)?;
    }
    Ok(())
}

// What is checked first: how many stations there are, and how many links.
pub fn check_counts(stations: u16, links: usize) -> Result<(), TrackFault>
    ensures { result_err result ≡ counts_fault stations links }
{
    if stations == 0 || stations > STATIONS {
        return Err(TrackFault::Stations);
    }
    if links > LINKS {
        return Err(TrackFault::Links);
    }
    Ok(())
}

// What is checked of each link, in the order of their rows. With `check_counts` it serves who holds the links in another
// form, as bytes.
pub fn check_link(stations: u16, link: Link, row: u16) -> Result<(), TrackFault>
    ensures { result_err result ≡ row_fault stations row link }
{
    if link.one >= stations {
        return Err(TrackFault::First(row));
    }
    if link.other >= stations {
        return Err(TrackFault::Second(row));
    }
    if link.one == link.other {
        return Err(TrackFault::Same(row));
    }
    Ok(())
}
