// What a bench keeps beside its data, worked out once.
ghost use Rattle.std.specs.Prelude.{◌≡◌, ℕ, ◌<◌, ◌≤◌, length, take, slice_index, slice_index_or};
ghost use Rattle.valves.specs.declared.interlock.Interlock.{Interlock as Lock};
ghost use Rattle.valves.specs.Positions.{product};
ghost use Rattle.valves.specs.Tables.{Weighs, Begins, GoesOn};
ghost use Rattle.valves.specs.Held.{positions_in, weights_in, firsts_in, locks_in, following_in};

use crate::bench::row::Row;
use crate::bench::valve::Valve;
use crate::interlock::Interlock;
use arrayvec::ArrayVec;

// The valves, each with the row of its first interlock, and the number of settings.
pub(crate) fn valves_of(positions: &[u8], first: &[u8; 12]) -> (ArrayVec<Valve, 12>, u32)
    requires few { length positions.now ≤ 12 }
    requires two { (v : ℕ) → v < length positions.now → 2 ≤ slice_index positions.now v }
    requires four { (v : ℕ) → v < length positions.now → slice_index positions.now v ≤ 4 }
    ensures held { positions_in result.0.items ≡ positions.now }
    ensures weighs { Weighs positions.now (weights_in result.0.items) }
    ensures begins { firsts_in result.0.items ≡ take (length positions.now) first.now }
    ensures counts { result.1 ≡ product positions.now }
{
    let mut valves = ArrayVec::new();
    let mut weight = 1u32;
    for (valve, count) in positions.iter().enumerate() {
        valves.push(Valve::new(*count, weight, first[valve]));
        weight *= *count as u32;
    }
    (valves, weight)
}

// Stays: how many interlocks there are at most is asked by each of these, which see a part of what was checked.
// The interlocks, each with the next row of its valve.
pub(crate) fn rows_of(interlocks: &[Interlock], following: &[u8; 32]) -> ArrayVec<Row, 32>
    requires { length interlocks.now ≤ 32 }
    ensures held { locks_in result.items ≡ interlocks.now }
    ensures goes { following_in result.items ≡ take (length interlocks.now) following.now }
{
    let mut rows = ArrayVec::new();
    for (row, lock) in interlocks.iter().enumerate() {
        rows.push(Row {
            lock: *lock,
            following: following[row],
        });
    }
    rows
}

// The row of the first interlock of each valve, and after each interlock that of the next of the same valve; the number
// of interlocks where there is none.
pub(crate) struct Chains {
    pub(crate) first: [u8; 12],
    pub(crate) following: [u8; 32],
}

// Stays: one pass from the last interlock to the first; to look for the next one of each would take a pass for each valve
// and each interlock.
pub(crate) fn chains_of(interlocks: &[Interlock]) -> Chains
    requires few { length interlocks.now ≤ 32 }
    requires twelve { (r : ℕ) (d : Lock) → r < length interlocks.now → (slice_index_or interlocks.now r d).valve < 12 }
    ensures begins { Begins 12 interlocks.now result.first }
    ensures goes { GoesOn interlocks.now result.following }
{
    let mut row = interlocks.len();
    let mut first = [row as u8; 12];
    let mut following = [row as u8; 32];
    while row > 0 {
        row -= 1;
        let valve = interlocks[row].valve as usize;
        following[row] = first[valve];
        first[valve] = row as u8;
    }
    Chains { first, following }
}
