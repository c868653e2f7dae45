// The body of a track taken apart.
ghost use Rattle.std.specs.Prelude.{◌≡◌};
ghost use Rattle.std.specs.List.{slice_get};
ghost use Rattle.plant_bodies.specs.TrackRule.{stations_in, link_count, body_links};

use crate::bytes::{byte_at, row_in};
use numbers::word;
use track::link::Link;

// The number of stations.
pub fn stations(body: &[u8]) -> u16
    ensures { result ≡ stations_in body.now }
{
    word(byte_at(body, 0), byte_at(body, 1))
}

// The number of links.
pub fn links(body: &[u8]) -> u16
    ensures { result ≡ link_count body.now }
{
    word(byte_at(body, 2), byte_at(body, 3))
}

// The link with a number, from 0; none past the last.
pub fn link_in(body: &[u8], number: u16) -> Option<Link>
    ensures { result ≡ slice_get (body_links body.now) number }
{
    row_in(body, 4, links(body), number)
}
