// A track made of the bytes of its body.
ghost use Rattle.plants_read.specs.Tracks.{ReadsTrack};

use plant_bodies::track_body::{TrackBody, track_fault};
use track::track::Track;

// The track that the body describes; none where the body has a fault.
pub fn track_of(body: &[u8]) -> Option<Track>
    ensures { ReadsTrack body.now result }
{
    // A fault is told where the body lies, before anything is taken out of it.
    if track_fault(body).is_some() {
        return None;
    }
    let track = TrackBody::of(body)?;
    Track::new(track.stations, &track.links).ok()
}
