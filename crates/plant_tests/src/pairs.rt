// Pairs: both sides of one, pairs of pairs, and pairs that are too large.
use crate::samples::{
    Examples, bench_and_ring, check_examples, check_size, check_steps, largest_bench, link,
    track_of, yard,
};
use pair::pair::Pair;
use plant::follow::follow;
use plant::plant::Plant;
use sample_plants::{bench_a, ring_with_spur};
use std::process::Abort;
use std::test::Fail;

// The setting of the pair is the bench's plus 6 times the ring's, and the ring's operations follow the bench's. The last
// rows are out of range.
#[test]
fn both_sides_of_a_pair(rt: HostRuntime) -> Result<(), Fail> {
    let pair = bench_and_ring();
    let first = [
        (0, 0, Some(1)),
        (1, 0, None),
        (29, 3, Some(26)),
        (7, 2, Some(10)),
        (30, 0, None),
    ];
    let examples = Examples {
        settings: 30,
        operations: 9,
        steps: &[
            (0, 4, Some(6)),
            (16, 8, Some(28)),
            (29, 8, Some(17)),
            (0, 8, None),
            (30, 4, None),
            (0, 9, None),
        ],
        reverses: &[(0, 1), (3, 2), (4, 4), (8, 8), (9, 9)],
        estimates: &[
            (0, 26, 3),
            (26, 0, 3),
            (0, 24, 1),
            (0, 2, 2),
            (7, 7, 0),
            (0, 30, 0),
            (30, 0, 0),
        ],
    };
    assert!(rt; !pair.too_large());
    check_steps(&rt, &pair, &first);
    check_examples(&rt, &pair, examples);
    assert_eq!(rt; follow(&pair, 0, &[0, 4, 2, 5, 0, 8, 3]), Some(26));
    Ok(())
}

#[test]
fn parts_of_a_pair(rt: HostRuntime) -> Result<(), Fail> {
    let pair = bench_and_ring();
    assert_eq!(rt; pair.split(26), Some((2, 4)));
    assert_eq!(rt; pair.split(29), Some((5, 4)));
    assert_eq!(rt; pair.split(30), None);
    check_size(&rt, pair.first(), 6, 4);
    check_size(&rt, pair.second(), 5, 5);
    Ok(())
}

// Bench A and two rings are the same plant, whichever two of them are paired first.
fn check_bench_and_two_rings<P: Plant>(rt: &impl Abort, plant: &P) {
    let examples = Examples {
        settings: 150,
        operations: 14,
        steps: &[
            (149, 13, Some(89)),
            (149, 8, Some(137)),
            (149, 3, Some(146)),
        ],
        reverses: &[(2, 3), (13, 13), (14, 14)],
        estimates: &[(0, 149, 5), (0, 146, 4), (0, 150, 0)],
    };
    check_examples(rt, plant, examples);
}

#[test]
fn pairs_of_pairs(rt: HostRuntime) -> Result<(), Fail> {
    let inner = Pair::new(bench_and_ring(), ring_with_spur());
    check_bench_and_two_rings(&rt, &inner);
    assert_eq!(rt; inner.split(149), Some((29, 4)));
    let outer = Pair::new(bench_a(), Pair::new(ring_with_spur(), ring_with_spur()));
    check_bench_and_two_rings(&rt, &outer);
    assert_eq!(rt; outer.split(149), Some((5, 24)));
    Ok(())
}

// A pair that is too large has one setting and no operation.
fn check_too_large<F: Plant, S: Plant>(rt: &impl Abort, pair: &Pair<F, S>) {
    let examples = Examples {
        settings: 1,
        operations: 0,
        steps: &[(0, 0, None), (1, 0, None), (0, 2047, None)],
        reverses: &[(0, 0), (1, 1), (2047, 2047)],
        estimates: &[(0, 0, 0), (0, 1, 0), (1, 0, 0)],
    };
    assert!(rt; pair.too_large());
    check_examples(rt, pair, examples);
    assert_eq!(rt; pair.split(0), Some((0, 0)));
    assert_eq!(rt; pair.split(1), None);
}

// A pair of just 16,777,216 settings is a plant of that many.
#[test]
fn the_most_settings(rt: HostRuntime) -> Result<(), Fail> {
    let most = Pair::new(largest_bench()?, yard(1)?);
    assert!(rt; !most.too_large());
    check_size(&rt, &most, 16_777_216, 24);
    check_steps(
        &rt,
        &most,
        &[(16_777_215, 23, Some(12_582_911)), (16_777_216, 0, None)],
    );
    Ok(())
}

// No pair of benches and tracks has one setting more than the most: 16,777,217 has the prime factor 673, which no track
// and no bench brings. The fewest that one can have above it are 16,777,225 = 365 * 145 * 317.
#[test]
fn too_many_settings(rt: HostRuntime) -> Result<(), Fail> {
    let inner = Pair::new(yard(365)?, yard(145)?);
    check_size(&rt, &inner, 52_925, 0);
    check_too_large(&rt, &Pair::new(inner, yard(317)?));
    check_too_large(&rt, &Pair::new(largest_bench()?, yard(2)?));
    Ok(())
}

#[test]
fn too_many_operations(rt: HostRuntime) -> Result<(), Fail> {
    let wide = track_of(2, &[link(0, 1); 1024])?;
    let most = Pair::new(wide, wide);
    assert!(rt; !most.too_large());
    check_size(&rt, &most, 4, 2048);
    let ends = [
        (0, 1023, Some(1)),
        (0, 1024, Some(2)),
        (3, 2047, Some(1)),
        (0, 2048, None),
    ];
    check_steps(&rt, &most, &ends);
    let over = Pair::new(most, track_of(2, &[link(0, 1)])?);
    check_too_large(&rt, &over);
    // a pair with one that is too large
    check_size(&rt, &Pair::new(over, ring_with_spur()), 5, 5);
    Ok(())
}
