// The plants of the program: bench A, a ring of four stations with a spur, and the two run as one.
use pair::pair::Pair;
use sample_plants::{bench_a, ring_with_spur};
use tagged::tagged::Tagged;
use track::track::Track;
use valves::bench::Bench;

#[derive(Drop)]
pub struct Shop {
    pub bench: Tagged<Bench>,
    pub track: Tagged<Track>,
    pub pair: Tagged<Pair<Bench, Track>>,
}

impl Shop {
    pub(crate) fn new() -> Shop {
        Shop {
            bench: Tagged::new(bench_a()),
            track: Tagged::new(ring_with_spur()),
            pair: Tagged::new(Pair::new(bench_a(), ring_with_spur())),
        }
    }
}
