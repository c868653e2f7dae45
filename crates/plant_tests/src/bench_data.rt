// The data of benches: which make one, and the first fault of those that do not.
use crate::samples::{bench_of, check_size, lock};
use std::process::Abort;
use std::test::Fail;
use valves::bench::Bench;
use valves::check::first_fault;
use valves::fault::BenchFault;
use valves::interlock::Interlock;

// The numbers of positions, the interlocks, and the first fault of the two.
type Row<'a> = (&'a [u8], &'a [Interlock], BenchFault);

fn check_faults(rt: &impl Abort, rows: &[Row<'_>]) {
    for &(positions, interlocks, fault) in rows {
        assert_eq!(rt; first_fault(positions, interlocks), Some(fault));
        assert_eq!(rt; Bench::new(positions, interlocks).err(), Some(fault));
    }
}

#[test]
fn numbers_of_valves_positions_and_interlocks(rt: HostRuntime) {
    check_faults(
        &rt,
        &[
            (&[], &[], BenchFault::Valves),
            (&[2; 13], &[], BenchFault::Valves),
            (&[2, 2, 1], &[], BenchFault::Positions(2)),
            (&[2, 5, 2], &[], BenchFault::Positions(1)),
            (&[2, 2], &[lock(0, 1, 1, 0); 33], BenchFault::Interlocks),
        ],
    );
}

#[test]
fn fields_of_interlocks(rt: HostRuntime) {
    let good = lock(0, 2, 1, 1);
    check_faults(
        &rt,
        &[
            (&[3, 2], &[lock(2, 0, 1, 0)], BenchFault::Valve(0)),
            (&[3, 2], &[good, lock(1, 2, 0, 0)], BenchFault::Position(1)),
            (
                &[3, 2],
                &[good, good, lock(0, 2, 2, 0)],
                BenchFault::Other(2),
            ),
            (&[3, 2], &[lock(1, 1, 1, 1)], BenchFault::Same(0)),
            (&[3, 2], &[lock(0, 0, 1, 2)], BenchFault::Stands(0)),
        ],
    );
}

// Where several faults are there, the one that is checked first is named.
#[test]
fn the_first_fault(rt: HostRuntime) {
    let wrong = lock(9, 9, 9, 9);
    check_faults(
        &rt,
        &[
            (&[], &[wrong; 33], BenchFault::Valves),
            (&[9, 1], &[wrong; 33], BenchFault::Interlocks),
            (&[2, 5, 1], &[wrong], BenchFault::Positions(1)),
            (&[2, 2], &[wrong], BenchFault::Valve(0)),
            (&[2, 2], &[lock(0, 9, 9, 9)], BenchFault::Position(0)),
            (&[2, 2], &[lock(0, 1, 9, 9)], BenchFault::Other(0)),
            (&[2, 2], &[lock(0, 1, 0, 9)], BenchFault::Same(0)),
            (&[2, 2], &[lock(0, 1, 1, 9), wrong], BenchFault::Stands(0)),
        ],
    );
}

// The fewest and the most of everything make a bench, and so does an interlock that is written twice.
#[test]
fn benches_that_are_made(rt: HostRuntime) -> Result<(), Fail> {
    check_size(&rt, &bench_of(&[2], &[])?, 2, 2);
    check_size(&rt, &bench_of(&[2, 4], &[lock(1, 3, 0, 1); 32])?, 8, 4);
    check_size(&rt, &bench_of(&[2; 12], &[lock(11, 0, 0, 0)])?, 4096, 24);
    assert_eq!(rt; first_fault(&[4; 12], &[]), None);
    Ok(())
}
