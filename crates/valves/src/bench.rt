// A valve bench: its valves and its interlocks, each beside what is worked out once, so that a step looks at one valve
// and at that valve's interlocks alone.
ghost use Rattle.std.specs.Prelude.{◌≡◌, false, length, is_some};
ghost use Rattle.valves.specs.Positions.{product};
ghost use Rattle.valves.specs.Faults.{bench_fault};
ghost use Rattle.valves.specs.Tables.{Weighs, Begins, GoesOn};
ghost use Rattle.valves.specs.Held.{positions_in, weights_in, firsts_in, locks_in, following_in};

use crate::bench::row::Row;
use crate::bench::valve::Valve;
use arrayvec::ArrayVec;

mod at;
mod look;
mod make;
pub mod questions;
mod row;
mod tables;
mod valve;

#[derive(Drop)]
pub struct Bench {
    valves: ArrayVec<Valve, 12>,
    // the interlocks, in the order given
    rows: ArrayVec<Row, 32>,
    settings: u32,
    ghost faultless: { is_some (bench_fault (positions_in valves.items) (locks_in rows.items)) ≡ false },
    ghost weighs: { Weighs (positions_in valves.items) (weights_in valves.items) },
    ghost counts: { settings ≡ product (positions_in valves.items) },
    ghost begins: { Begins (length valves.items) (locks_in rows.items) (firsts_in valves.items) },
    ghost goes: { GoesOn (locks_in rows.items) (following_in rows.items) },
}
