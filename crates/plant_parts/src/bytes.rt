// Bytes and rows by their place in a body, where a byte past the end is 0.
ghost use Rattle.std.specs.Prelude.{◌≡◌, drop, slice_index};
ghost use Rattle.std.specs.List.{slice_get};
ghost use Rattle.plant_bodies.specs.Rows.{rows_in};

use plant_bodies::rows::Row;

// The byte at a place.
pub(crate) fn byte_at(bytes: &[u8], at: usize) -> u8
    ensures { result ≡ slice_index bytes.now at }
{
    bytes.get(at).copied().unwrap_or(0)
}

// The row with a number, from 0, of so many that begin at a place; none past the last.
pub(crate) fn row_in<R: Row>(body: &[u8], begin: u16, count: u16, number: u16) -> Option<R>
    ensures { result ≡ slice_get (rows_in R.said count (drop begin body.now)) number }
{
    if number >= count {
        return None;
    }
    let at = begin as usize + 4 * number as usize;
    Some(R::of([
        byte_at(body, at),
        byte_at(body, at + 1),
        byte_at(body, at + 2),
        byte_at(body, at + 3),
    ]))
}
