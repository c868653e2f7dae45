// A bench made of the bytes of its body.
ghost use Rattle.plants_read.specs.Benches.{ReadsBench};

use plant_bodies::bench_body::{BenchBody, valves_fault};
use valves::bench::Bench;

// The bench that the body describes; none where the body has a fault.
pub fn bench_of(body: &[u8]) -> Option<Bench>
    ensures { ReadsBench body.now result }
{
    // A fault is told where the body lies, before anything is taken out of it.
    if valves_fault(body).is_some() {
        return None;
    }
    let bench = BenchBody::of(body)?;
    Bench::new(bench.positions, &bench.interlocks).ok()
}
