// Small plants that programs, tests and worked runs share.
#![tactic(auto)]

ghost use Rattle.std.specs.Prelude.{◌≡◌};
ghost use Rattle.valves.specs.Of.{counts_of, interlocks_of};
ghost use Rattle.track.specs.Track.{links_of};
ghost use Rattle.sample_plants.specs.BenchA.{positions, interlocks};
ghost use Rattle.sample_plants.specs.Ring.{links};

use track::link::Link;
use track::track::Track;
use valves::bench::Bench;
use valves::interlock::Interlock;

// Bench A: two valves of 3 and 2 positions; valve 0 may not move into or out of position 2 while valve 1 stands at 0.
// Operations 0 and 1 move valve 0 up and down, and 2 and 3 move valve 1.
pub fn bench_a() -> Bench
    ensures positions { counts_of result ≡ positions }
    ensures interlocks { interlocks_of result ≡ interlocks }
{
    let interlock = Interlock {
        valve: 0,
        position: 2,
        other: 1,
        stands: 0,
    };
    match Bench::new(&[3, 2], &[interlock]) {
        Ok(bench) => bench,
        Err(_) => unreachable(),
    }
}

// A ring of four stations, and a spur from station 2 to station 4.
pub fn ring_with_spur() -> Track
    ensures stations { result.stations ≡ 5 }
    ensures links { links_of result ≡ links }
{
    let links = [
        Link { one: 0, other: 1 },
        Link { one: 1, other: 2 },
        Link { one: 2, other: 3 },
        Link { one: 3, other: 0 },
        Link { one: 2, other: 4 },
    ];
    match Track::new(5, &links) {
        Ok(track) => track,
        Err(_) => unreachable(),
    }
}
