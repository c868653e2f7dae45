// The plants of the program: bench A, a bench of twelve valves, a ring of stations with two ways round, and bench A
// and the ring run as one.
use anyhow::anyhow;
use pair::pair::Pair;
use sample_plants::bench_a;
use tagged::tagged::Tagged;
use track::link::Link;
use track::track::Track;
use valves::bench::Bench;
use valves::interlock::Interlock;

#[derive(Drop)]
pub struct Plants {
    pub bench: Tagged<Bench>,
    pub twelve: Tagged<Bench>,
    pub ring: Tagged<Track>,
    pub pair: Tagged<Pair<Bench, Track>>,
}

impl Plants {
    pub(crate) fn new() -> anyhow::Result<Plants> {
        Ok(Plants {
            bench: Tagged::new(bench_a()),
            twelve: Tagged::new(twelve_valves()?),
            ring: Tagged::new(ring()?),
            pair: Tagged::new(Pair::new(bench_a(), ring()?)),
        })
    }
}

fn lock(valve: u8, position: u8, other: u8, stands: u8) -> Interlock {
    Interlock {
        valve,
        position,
        other,
        stands,
    }
}

// Valve 0 leaves position 0 only after valve 1, valve 1 only after valve 2, and valve 11 only while valve 0 is at 0.
fn twelve_valves() -> anyhow::Result<Bench> {
    let locks = [lock(0, 0, 1, 0), lock(1, 0, 2, 0), lock(11, 0, 0, 1)];
    Bench::new(&[2, 3, 2, 4, 2, 3, 2, 4, 2, 3, 2, 4], &locks).map_err(|_| anyhow!(
        "the bench is not made"
    ))
}

// Six stations in a ring, so that both ways from 0 to 3 have three links; 5 is joined twice to 6, and 7 to none.
fn ring() -> anyhow::Result<Track> {
    let links = [
        Link { one: 5, other: 0 },
        Link { one: 0, other: 1 },
        Link { one: 1, other: 2 },
        Link { one: 2, other: 3 },
        Link { one: 3, other: 4 },
        Link { one: 4, other: 5 },
        Link { one: 6, other: 5 },
        Link { one: 5, other: 6 },
    ];
    Track::new(8, &links).map_err(|_| anyhow!("the track is not made"))
}
