// The body of a valve bench: taken apart, and what is wrong with it first.
ghost use Rattle.std.specs.Prelude.{◌≡◌, ◌/◌, false, length, Some, None};
ghost use Rattle.std.specs.Result.{result_err};
ghost use Rattle.valves.specs.Faults.{bench_fault};
ghost use Rattle.plant_bodies.specs.BenchRule.{bench_long, BenchSays, interlocks_in, valves_fault};

use crate::rows::{Row, read_rows};
use arrayvec::ArrayVec;
use valves::check::{check_row, check_sizes};
use valves::fault::BenchFault;
use valves::interlock::Interlock;

// The numbers of positions and the interlocks. One interlock more than a bench can have is read at most, so that too
// many are told from enough.
#[derive(Drop)]
pub struct BenchBody<'a> {
    pub positions: &'a [u8],
    pub interlocks: ArrayVec<Interlock, 33>,
}

#[derive(Clone, Copy, PartialEq, Eq, Debug)]
pub enum ValvesFault {
    // not as long as its counts of valves and interlocks say
    Length,
    // of a body that counts so many valves
    Bench { valves: u8, fault: BenchFault },
}

impl<'a> BenchBody<'a> {
    // Takes the body of a valve bench apart; none where it is not as long as its counts of valves and interlocks say.
    pub fn of(body: &'a [u8]) -> Option<BenchBody<'a>>
        ensures { elim result [ Some b ↦ BenchSays body.now b.positions.now b.interlocks.items | None ↦ bench_long body.now ≡ false ] }
    {
        let [valves, count, rest @ ..] = body else {
            return None;
        };
        let split = *valves as usize;
        let end = split + 4 * *count as usize;
        if rest.len() != end {
            return None;
        }
        let (positions, rows) = rest.split_at(split);
        let mut interlocks = ArrayVec::new();
        read_rows(&mut interlocks, rows);
        Some(BenchBody {
            positions,
            interlocks,
        })
    }
}

// The first fault of the body of a valve bench: its length, then the bench's first fault.
pub fn valves_fault(body: &[u8]) -> Option<ValvesFault>
    ensures { result ≡ valves_fault body.now }
{
    let [valves, count, rest @ ..] = body else {
        return Some(ValvesFault::Length);
    };
    let split = *valves as usize;
    if rest.len() != split + 4 * *count as usize {
        return Some(ValvesFault::Length);
    }
    let (positions, rows) = rest.split_at(split);
    let fault = check_rows(positions, rows).err()?;
    Some(ValvesFault::Bench {
        valves: *valves,
        fault,
    })
}

// The checks of a bench whose interlocks are read where they lie, each once, and none past the first fault.
fn check_rows(positions: &[u8], rows: &[u8]) -> Result<(), BenchFault>
    ensures { result_err result ≡ bench_fault positions.now (interlocks_in (length rows.now / 4) rows.now) }
{
    let (fours, _) = rows.as_chunks::<4>();
    check_sizes(positions, fours.len())?;
    for (row, four) in fours.iter().enumerate() {
        let lock = Interlock::of(*four);
        check_row(positions, lock, row as u8)?;
    }
    Ok(())
}
