// Plans for callers in C. The answer is the length, 0 to 255; or 256 times the number of the refusal, 4 to 7; or 65,536
// where the body has a fault or the place for the list has not 255 numbers, and then nothing is changed.
ghost use Rattle.std.specs.Prelude.{◌≡◌, length};
ghost use Rattle.legs.specs.Asked.{asked};
ghost use Rattle.legs.specs.Plans.{planned};
ghost use Rattle.search.specs.Leg.{leg};
ghost use Rattle.search.specs.Records.{relay_blank};
ghost use Rattle.search.specs.Answered.{search_leaves};
ghost use Rattle.plans_for_c.specs.ForC.{plan_code, count_told, list_told, bench_for, answer_on, left_on};

use legs::leg::Leg;
use legs::relayed::Relayed;
use plan::planning::plan;
use plant::plant::Plant;
use plants_read::bench_read::bench_of;

// What is answered where there is no bench, or no place for a list.
const NO_PLAN: u64 = 65536;

// Stays: records and index as two slices, since a struct of two `&mut` is told in contracts by ghost names.
fn plan_on<P: Plant>(
    plant: &P,
    leg: Leg,
    records: &mut [Relayed],
    index: &mut [u32],
    list: &mut [u16],
    count: &mut u64,
) -> u64
    requires { length list.old ≡ 255 }
    ensures answer { result ≡ plan_code (planned (P.meaning plant.now) (asked leg) (length records.old)) }
    ensures list { list.new ≡ list_told (planned (P.meaning plant.now) (asked leg) (length records.old)) list.old }
    ensures count { count.new ≡ count_told (planned (P.meaning plant.now) (asked leg) (length records.old)) count.old }
    ensures records { records.new ≡ search_leaves relay_blank (P.meaning plant.now) (asked leg) records.old }
{
    let mut place = [0u16; 255];
    match plan(plant, leg, records, index, &mut place) {
        Ok(planned) => {
            list.copy_from_slice(&place);
            *count = planned.count;
            planned.length as u64
        }
        Err(refusal) => 256 * refusal.code() as u64,
    }
}

// Stays: plain numbers and slices, since C makes the call.
// Plans on the bench that the body describes, and writes the list, with zero behind it.
#[unsafe(no_mangle)]
pub extern "C" fn jidorafu_plan_bench(
    body: &[u8],
    start: u32,
    target: u32,
    bound: u16,
    records: &mut [Relayed],
    index: &mut [u32],
    list: &mut [u16],
    count: &mut u64,
) -> u64
    ensures answer { result ≡ answer_on (λ m. plan_code (planned m (leg start target bound) (length records.old))) (bench_for body.now (length list.old)) }
    ensures list { list.new ≡ left_on (λ m. list_told (planned m (leg start target bound) (length records.old))) (bench_for body.now (length list.old)) list.old }
    ensures count { count.new ≡ left_on (λ m. count_told (planned m (leg start target bound) (length records.old))) (bench_for body.now (length list.old)) count.old }
    ensures records { records.new ≡ left_on (λ m. search_leaves relay_blank m (leg start target bound)) (bench_for body.now (length list.old)) records.old }
{
    if list.len() != 255 {
        return NO_PLAN;
    }
    let leg = Leg {
        start,
        target,
        bound,
    };
    match bench_of(body) {
        Some(bench) => plan_on(&bench, leg, records, index, list, count),
        None => NO_PLAN,
    }
}
