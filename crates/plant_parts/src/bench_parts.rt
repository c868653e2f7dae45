// The body of a valve bench taken apart.
ghost use Rattle.std.specs.Prelude.{◌≡◌};
ghost use Rattle.std.specs.List.{slice_get};
ghost use Rattle.plant_bodies.specs.BenchRule.{body_positions, body_interlocks};

use crate::bytes::{byte_at, row_in};
use valves::interlock::Interlock;

// The numbers of positions of the valves, as a part of the body.
pub fn positions<'a>(body: &'a [u8]) -> &'a [u8]
    ensures { result.now ≡ body_positions body.now }
{
    let [valves, _, rest @ ..] = body else {
        return &[];
    };
    let told = *valves as usize;
    rest.get(..told).unwrap_or(rest)
}

// The interlock in a row, from 0; none past the last.
pub fn interlock_in(body: &[u8], row: u8) -> Option<Interlock>
    ensures { result ≡ slice_get (body_interlocks body.now) row }
{
    row_in(
        body,
        2 + byte_at(body, 0) as u16,
        byte_at(body, 1) as u16,
        row as u16,
    )
}
