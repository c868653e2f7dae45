// A link between two stations, and what can be wrong with a track.

#[derive(Clone, Copy, PartialEq, Eq, Debug, Default)]
pub struct Link {
    pub one: u16,
    pub other: u16,
}

// The number is the row of the link, from 0.
#[derive(Clone, Copy, PartialEq, Eq, Debug)]
pub enum TrackFault {
    // not 1 to 512 stations
    Stations,
    // more than 1,024 links
    Links,
    // the first station of the link is no station
    First(u16),
    // the second station of the link is no station
    Second(u16),
    // the link joins a station to itself
    Same(u16),
}
