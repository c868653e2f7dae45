// Checks the data of a bench: the number of valves, the number of interlocks, the positions, the interlocks.
ghost use Rattle.std.specs.Prelude.{◌≡◌, ◌≤◌, ◌↔◌, length, None};
ghost use Rattle.std.specs.Result.{result_err};
ghost use Rattle.valves.specs.Faults.{positions_fault, interlock_fault, interlocks_fault, sizes_fault, bench_fault};
ghost use Rattle.valves.specs.Data.{BenchData};

use crate::fault::BenchFault;
use crate::interlock::Interlock;

// The most valves and interlocks of a bench, and the fewest and most positions of a valve.
const VALVES: usize = 12;

const INTERLOCKS: usize = 32;

const FEWEST: u8 = 2;

const MOST: u8 = 4;

// The first fault of the data, in the order of the checks; none exactly where they make a bench.
pub fn first_fault(positions: &[u8], interlocks: &[Interlock]) -> Option<BenchFault>
    ensures exact { result ≡ bench_fault positions.now interlocks.now }
    ensures none { (result ≡ None) ↔ BenchData positions.now interlocks.now }
{
    check(positions, interlocks).err()
}

pub(crate) fn check(positions: &[u8], interlocks: &[Interlock]) -> Result<(), BenchFault>
    ensures { result_err result ≡ bench_fault positions.now interlocks.now }
{
    check_sizes(positions, interlocks.len())?;
    check_interlocks(positions, interlocks)
}

// What comes before the interlocks, of which there are so many: their number, and the valves. For callers that take the
// interlocks one by one from where they lie.
pub fn check_sizes(positions: &[u8], interlocks: usize) -> Result<(), BenchFault>
    ensures { result_err result ≡ sizes_fault positions.now interlocks }
{
    if positions.is_empty() || positions.len() > VALVES {
        return Err(BenchFault::Valves);
    }
    if interlocks > INTERLOCKS {
        return Err(BenchFault::Interlocks);
    }
    check_positions(positions)
}

// Each valve has 2 to 4 positions.
fn check_positions(positions: &[u8]) -> Result<(), BenchFault>
    requires { length positions.now ≤ 12 }
    ensures { result_err result ≡ positions_fault positions.now 0 }
{
    for (valve, count) in positions.iter().enumerate() {
        if !(FEWEST..=MOST).contains(count) {
            return Err(BenchFault::Positions(valve as u8));
        }
    }
    Ok(())
}

// The interlocks, row by row.
fn check_interlocks(positions: &[u8], interlocks: &[Interlock]) -> Result<(), BenchFault>
    requires { length interlocks.now ≤ 32 }
    ensures { result_err result ≡ interlocks_fault positions.now interlocks.now 0 }
{
    for (row, lock) in interlocks.iter().enumerate() {
        check_row(positions, *lock, row as u8)?;
    }
    Ok(())
}

// The fields of one interlock, in this row.
pub fn check_row(positions: &[u8], lock: Interlock, row: u8) -> Result<(), BenchFault>
    ensures { result_err result ≡ interlock_fault positions.now lock row }
{
    let own = positions
        .get(lock.valve as usize)
        .ok_or(BenchFault::Valve(row))?;
    if lock.position >= *own {
        return Err(BenchFault::Position(row));
    }
    let others = positions
        .get(lock.other as usize)
        .ok_or(BenchFault::Other(row))?;
    if lock.other == lock.valve {
        return Err(BenchFault::Same(row));
    }
    if lock.stands >= *others {
        return Err(BenchFault::Stands(row));
    }
    Ok(())
}
