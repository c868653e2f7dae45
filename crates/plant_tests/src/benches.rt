// Valve benches: steps, reverses, estimates and positions.
use crate::samples::{
    bench_of, check_estimates, check_reverses, check_size, check_steps, largest_bench, lock,
};
use plant::follow::follow;
use plant::plant::Plant;
use sample_plants::bench_a;
use std::test::Fail;

// The last setting of the largest bench.
const LAST: u32 = 16_777_215;

// The positions of valve 0 and valve 1 of bench A at each setting.
const POSITIONS: [(u32, u8, u8); 6] = [
    (0, 0, 0),
    (1, 1, 0),
    (2, 2, 0),
    (3, 0, 1),
    (4, 1, 1),
    (5, 2, 1),
];

// Where operations 0 to 3 lead from each setting of bench A.
const STEPS: [(u32, [Option<u32>; 4]); 6] = [
    (0, [Some(1), None, Some(3), None]),
    (1, [None, Some(0), Some(4), None]),
    (2, [None, None, Some(5), None]),
    (3, [Some(4), None, None, Some(0)]),
    (4, [Some(5), Some(3), None, Some(1)]),
    (5, [None, Some(4), None, Some(2)]),
];

// The estimates from each setting of bench A to each.
const ESTIMATES: [(u32, [u16; 6]); 6] = [
    (0, [0, 1, 2, 1, 2, 3]),
    (1, [1, 0, 1, 2, 1, 2]),
    (2, [2, 1, 0, 3, 2, 1]),
    (3, [1, 2, 3, 0, 1, 2]),
    (4, [2, 1, 2, 1, 0, 1]),
    (5, [3, 2, 1, 2, 1, 0]),
];

#[test]
fn bench_a_steps(rt: HostRuntime) -> Result<(), Fail> {
    let bench = bench_a();
    check_size(&rt, &bench, 6, 4);
    for (setting, row) in STEPS {
        for (operation, to) in (0..4u16).zip(row) {
            assert_eq!(rt;
                bench.step(setting, operation),
                to,
                "setting {setting}, operation {operation}"
            );
        }
        assert_eq!(rt; bench.step(setting, 4), None);
    }
    check_steps(
        &rt,
        &bench,
        &[(6, 0, None), (6, 1, None), (6, 3, None), (6, 4, None)],
    );
    Ok(())
}

#[test]
fn bench_a_estimates(rt: HostRuntime) -> Result<(), Fail> {
    let bench = bench_a();
    for (from, row) in ESTIMATES {
        for (to, estimate) in (0..6u32).zip(row) {
            assert_eq!(rt; bench.estimate(from, to), estimate, "from {from} to {to}");
        }
    }
    check_estimates(&rt, &bench, &[(6, 0, 0), (2, 6, 0), (6, 6, 0)]);
    Ok(())
}

#[test]
fn bench_a_positions_and_reverses(rt: HostRuntime) -> Result<(), Fail> {
    let bench = bench_a();
    for (setting, one, other) in POSITIONS {
        assert_eq!(rt; bench.position(setting, 0), Some(one));
        assert_eq!(rt; bench.position(setting, 1), Some(other));
        assert_eq!(rt; bench.position(setting, 2), None);
    }
    assert_eq!(rt; bench.position(6, 0), None);
    check_reverses(
        &rt,
        &bench,
        &[(0, 1), (1, 0), (2, 3), (3, 2), (4, 4), (5, 5)],
    );
    Ok(())
}

#[test]
fn lists_on_bench_a(rt: HostRuntime) -> Result<(), Fail> {
    let bench = bench_a();
    assert_eq!(rt; follow(&bench, 0, &[0, 2, 0, 3]), Some(2));
    assert_eq!(rt; follow(&bench, 2, &[2, 1, 3, 1]), Some(0), "the way back");
    assert_eq!(rt; follow(&bench, 0, &[0, 0]), None, "barred");
    assert_eq!(rt; follow(&bench, 0, &[4]), None, "no such operation");
    assert_eq!(rt; follow(&bench, 5, &[]), Some(5), "the empty list");
    Ok(())
}

// An interlock bars its first valve both into and out of the position, and its second valve never.
#[test]
fn an_interlock_bars_its_first_valve(rt: HostRuntime) -> Result<(), Fail> {
    let bench = bench_of(&[4, 2], &[lock(0, 1, 1, 1), lock(0, 1, 1, 1)])?;
    let away = [
        (0, 0, Some(1)),
        (1, 0, Some(2)),
        (2, 1, Some(1)),
        (1, 1, Some(0)),
    ];
    let barred = [(4, 0, None), (5, 0, None), (6, 1, None), (5, 1, None)];
    let free = [
        (6, 0, Some(7)),
        (7, 1, Some(6)),
        (1, 2, Some(5)),
        (5, 3, Some(1)),
    ];
    // valve 1 stands at 0
    check_steps(&rt, &bench, &away);
    // valve 1 stands at 1
    check_steps(&rt, &bench, &barred);
    // position 1 at neither end, and valve 1
    check_steps(&rt, &bench, &free);
    Ok(())
}

// At the first and at the last setting of the largest bench, each operation.
#[test]
fn the_largest_bench(rt: HostRuntime) -> Result<(), Fail> {
    let bench = largest_bench()?;
    check_size(&rt, &bench, 16_777_216, 24);
    for valve in 0..12u16 {
        let up = 2 * valve;
        let down = 2 * valve + 1;
        let weight = 1u32 << up as u32;
        let lower = LAST.checked_sub(weight);
        check_steps(
            &rt,
            &bench,
            &[
                (0, up, Some(weight)),
                (0, down, None),
                (LAST, up, None),
                (LAST, down, lower),
            ],
        );
        check_reverses(&rt, &bench, &[(up, down), (down, up)]);
    }
    check_steps(
        &rt,
        &bench,
        &[(LAST + 1, 0, None), (0, 24, None), (LAST, 24, None)],
    );
    check_estimates(
        &rt,
        &bench,
        &[
            (0, LAST, 36),
            (LAST, 0, 36),
            (LAST, LAST, 0),
            (0, LAST + 1, 0),
        ],
    );
    Ok(())
}
