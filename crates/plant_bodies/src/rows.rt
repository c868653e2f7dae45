// The rows of a body, four bytes each: the interlocks of a bench, or the links of a track.
ghost use Rattle.std.specs.Prelude.{◌≡◌, ℕ, ◌/◌, List, length, take};
ghost use Rattle.plant_bodies.specs.Rows.{rows_in, four, interlock, link, interlock_alone, link_alone};

use arrayvec::ArrayVec;
use numbers::word;
use track::link::Link;
use valves::interlock::Interlock;

// What a row says.
pub trait Row: Copy + Default {
    // what is said by the four bytes that a list begins with
    ghost said: { List ℕ → Self };

    fn of(bytes: [u8; 4]) -> Self
        ensures { result ≡ said bytes };

    // the bytes behind the four say nothing, and one that is not there says what 0 says
    ghost alone: { (bs : List ℕ) → said (four bs) ≡ said bs };
}

impl Row for Interlock {
    ghost said = { interlock };

    fn of(bytes: [u8; 4]) -> Interlock {
        let [valve, position, other, stands] = bytes;
        Interlock {
            valve,
            position,
            other,
            stands,
        }
    }

    ghost alone = { interlock_alone };
}

impl Row for Link {
    ghost said = { link };

    fn of(bytes: [u8; 4]) -> Link {
        let [a, b, c, d] = bytes;
        Link {
            one: word(a, b),
            other: word(c, d),
        }
    }

    ghost alone = { link_alone };
}

// Reads the rows that are there into a place, as many as it takes.
pub fn read_rows<R: Row, const MOST: usize>(rows: &mut ArrayVec<R, MOST>, bytes: &[u8])
    ensures { rows.new.items ≡ take MOST (rows_in R.said (length bytes.now / 4) bytes.now) }
{
    rows.clear();
    let (fours, _) = bytes.as_chunks::<4>();
    for four in fours.iter().take(MOST) {
        rows.push(R::of(*four));
    }
}
