// Making a bench of checked data.
ghost use Rattle.std.specs.Prelude.{◌≡◌};
ghost use Rattle.valves.specs.Data.{BenchData};
ghost use Rattle.valves.specs.Of.{counts_of, interlocks_of, Makes};

use crate::bench::Bench;
use crate::bench::tables::{Chains, chains_of, rows_of, valves_of};
use crate::check::check;
use crate::fault::BenchFault;
use crate::interlock::Interlock;

impl Bench {
    // A bench whose valves have these numbers of positions, with these interlocks; or the first fault of the data.
    pub fn new(positions: &[u8], interlocks: &[Interlock]) -> Result<Bench, BenchFault>
        ensures { Makes positions.now interlocks.now result }
    {
        check(positions, interlocks)?;
        Ok(make(positions, interlocks))
    }
}

fn make(positions: &[u8], interlocks: &[Interlock]) -> Bench
    requires { BenchData positions.now interlocks.now }
    ensures counts { counts_of result ≡ positions.now }
    ensures locks { interlocks_of result ≡ interlocks.now }
{
    let Chains { first, following } = chains_of(interlocks);
    let (valves, settings) = valves_of(positions, &first);
    Bench {
        valves,
        rows: rows_of(interlocks, &following),
        settings,
    }
}
