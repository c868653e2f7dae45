// Measures for callers in C. The answer is the length, 0 to 255; or 256 times the number of the refusal, 4 to 7; or 65,536
// where a body has a fault, and then nothing is changed. The settings expanded are told where there is a length.
ghost use Rattle.std.specs.Prelude.{◌≡◌, length};
ghost use Rattle.legs.specs.Asked.{asked};
ghost use Rattle.legs.specs.Answers.{measured};
ghost use Rattle.search.specs.Leg.{leg};
ghost use Rattle.search.specs.Answered.{search_leaves};
ghost use Rattle.plans_for_c.specs.ForC.{measure_code, count_told, bench_in, track_in, pair_in, answer_on, left_on};

use legs::leg::Leg;
use measure::measure;
use pair::pair::Pair;
use plant::plant::Plant;
use plants_read::bench_read::bench_of;
use plants_read::track_read::track_of;

// What is answered where a body has a fault.
const NO_PLANT: u64 = 65536;

// Stays: records and index as two slices, since a struct of two `&mut` is told in contracts by ghost names.
fn measure_on<P: Plant>(
    plant: &P,
    leg: Leg,
    records: &mut [u32],
    index: &mut [u32],
    expanded: &mut u64,
) -> u64
    ensures answer { result ≡ measure_code (measured (P.meaning plant.now) (asked leg) (length records.old)) }
    ensures count { expanded.new ≡ count_told (measured (P.meaning plant.now) (asked leg) (length records.old)) expanded.old }
    ensures records { records.new ≡ search_leaves 0 (P.meaning plant.now) (asked leg) records.old }
{
    match measure(plant, leg, records, index) {
        Ok(measured) => {
            *expanded = measured.expanded;
            measured.length as u64
        }
        Err(refusal) => 256 * refusal.code() as u64,
    }
}

// Stays: a call for each kind of plant, with plain numbers and slices, since C makes them by name.
// Measures on the bench that the body describes.
#[unsafe(no_mangle)]
pub extern "C" fn jidorafu_measure_bench(
    body: &[u8],
    start: u32,
    target: u32,
    bound: u16,
    records: &mut [u32],
    index: &mut [u32],
    expanded: &mut u64,
) -> u64
    ensures answer { result ≡ answer_on (λ m. measure_code (measured m (leg start target bound) (length records.old))) (bench_in body.now) }
    ensures count { expanded.new ≡ left_on (λ m. count_told (measured m (leg start target bound) (length records.old))) (bench_in body.now) expanded.old }
    ensures records { records.new ≡ left_on (λ m. search_leaves 0 m (leg start target bound)) (bench_in body.now) records.old }
{
    let leg = Leg {
        start,
        target,
        bound,
    };
    match bench_of(body) {
        Some(bench) => measure_on(&bench, leg, records, index, expanded),
        None => NO_PLANT,
    }
}

// Measures on the track that the body describes.
#[unsafe(no_mangle)]
pub extern "C" fn jidorafu_measure_track(
    body: &[u8],
    start: u32,
    target: u32,
    bound: u16,
    records: &mut [u32],
    index: &mut [u32],
    expanded: &mut u64,
) -> u64
    ensures answer { result ≡ answer_on (λ m. measure_code (measured m (leg start target bound) (length records.old))) (track_in body.now) }
    ensures count { expanded.new ≡ left_on (λ m. count_told (measured m (leg start target bound) (length records.old))) (track_in body.now) expanded.old }
    ensures records { records.new ≡ left_on (λ m. search_leaves 0 m (leg start target bound)) (track_in body.now) records.old }
{
    let leg = Leg {
        start,
        target,
        bound,
    };
    match track_of(body) {
        Some(track) => measure_on(&track, leg, records, index, expanded),
        None => NO_PLANT,
    }
}

// Measures on the pair of the benches that the two bodies describe.
#[unsafe(no_mangle)]
pub extern "C" fn jidorafu_measure_pair(
    first: &[u8],
    second: &[u8],
    start: u32,
    target: u32,
    bound: u16,
    records: &mut [u32],
    index: &mut [u32],
    expanded: &mut u64,
) -> u64
    ensures answer { result ≡ answer_on (λ m. measure_code (measured m (leg start target bound) (length records.old))) (pair_in first.now second.now) }
    ensures count { expanded.new ≡ left_on (λ m. count_told (measured m (leg start target bound) (length records.old))) (pair_in first.now second.now) expanded.old }
    ensures records { records.new ≡ left_on (λ m. search_leaves 0 m (leg start target bound)) (pair_in first.now second.now) records.old }
{
    let leg = Leg {
        start,
        target,
        bound,
    };
    let Some(one) = bench_of(first) else {
        return NO_PLANT;
    };
    let Some(other) = bench_of(second) else {
        return NO_PLANT;
    };
    measure_on(&Pair::new(one, other), leg, records, index, expanded)
}
