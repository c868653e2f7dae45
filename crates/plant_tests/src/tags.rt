// Tags: what they take out, what is refused, and tags below and above other plants.
use crate::samples::{Examples, bench_and_ring, check_examples, check_size, check_steps};
use pair::pair::Pair;
use plant::plant::Plant;
use plant::refusal::Refusal;
use sample_plants::{bench_a, ring_with_spur};
use std::process::Abort;
use std::test::Fail;
use tagged::tagged::Tagged;

// Operations, and whether each is tagged.
fn check_tags<P: Plant>(rt: &impl Abort, plant: &Tagged<P>, rows: &[(u16, bool)]) {
    for &(operation, tagged) in rows {
        assert_eq!(rt; plant.is_tagged(operation), tagged, "operation {operation}");
    }
}

// A tag covers an operation and its reverse, and is taken off by either. All else is as below.
#[test]
fn an_operation_and_its_reverse(rt: HostRuntime) -> Result<(), Fail> {
    let mut plant = Tagged::new(bench_a());
    let free = [(0, 2, Some(3)), (3, 3, Some(0)), (0, 0, Some(1))];
    let examples = Examples {
        settings: 6,
        operations: 4,
        steps: &[(0, 2, None), (3, 3, None), (0, 0, Some(1)), (6, 0, None)],
        reverses: &[(2, 3), (3, 2), (4, 4)],
        estimates: &[(0, 3, 1), (0, 5, 3), (0, 6, 0)],
    };
    check_steps(&rt, &plant, &free);
    plant.tag(3)?;
    check_tags(
        &rt,
        &plant,
        &[(0, false), (1, false), (2, true), (3, true), (4, false)],
    );
    check_examples(&rt, &plant, examples);
    check_steps(&rt, plant.below(), &free);
    plant.untag(2)?;
    check_tags(&rt, &plant, &[(2, false), (3, false)]);
    check_steps(&rt, &plant, &free);
    Ok(())
}

// Refused calls leave the tags as they were.
#[test]
fn refused_tags(rt: HostRuntime) -> Result<(), Fail> {
    let mut plant = Tagged::new(bench_a());
    plant.tag(0)?;
    assert_eq!(rt; plant.tag(0), Err(Refusal::TaggedAlready));
    assert_eq!(rt; plant.tag(1), Err(Refusal::TaggedAlready));
    assert_eq!(rt; plant.tag(4), Err(Refusal::NoSuchOperation));
    assert_eq!(rt; plant.tag(65_535), Err(Refusal::NoSuchOperation));
    assert_eq!(rt; plant.untag(2), Err(Refusal::Untagged));
    assert_eq!(rt; plant.untag(4), Err(Refusal::NoSuchOperation));
    check_tags(
        &rt,
        &plant,
        &[(0, true), (1, true), (2, false), (3, false), (4, false)],
    );
    Ok(())
}

// On a track an operation is its own reverse, and a tag covers it alone.
#[test]
fn a_tag_on_a_track(rt: HostRuntime) -> Result<(), Fail> {
    let mut plant = Tagged::new(ring_with_spur());
    plant.tag(1)?;
    check_steps(
        &rt,
        &plant,
        &[(1, 1, None), (2, 1, None), (0, 0, Some(1)), (2, 2, Some(3))],
    );
    assert_eq!(rt; plant.tag(1), Err(Refusal::TaggedAlready));
    plant.untag(1)?;
    check_steps(&rt, &plant, &[(1, 1, Some(2))]);
    Ok(())
}

#[test]
fn tags_over_a_pair(rt: HostRuntime) -> Result<(), Fail> {
    let mut plant = Tagged::new(bench_and_ring());
    plant.tag(1)?;
    plant.tag(8)?;
    assert_eq!(rt; plant.tag(9), Err(Refusal::NoSuchOperation));
    check_steps(
        &rt,
        &plant,
        &[
            (0, 0, None),
            (16, 8, None),
            (0, 4, Some(6)),
            (0, 2, Some(3)),
        ],
    );
    check_size(&rt, &plant, 30, 9);
    Ok(())
}

// The pair's operation 4 is the ring's operation 0.
#[test]
fn a_pair_of_tagged_plants(rt: HostRuntime) -> Result<(), Fail> {
    let mut bench = Tagged::new(bench_a());
    let mut track = Tagged::new(ring_with_spur());
    bench.tag(2)?;
    track.tag(0)?;
    let pair = Pair::new(bench, track);
    check_steps(
        &rt,
        &pair,
        &[
            (0, 2, None),
            (0, 4, None),
            (0, 0, Some(1)),
            (0, 7, Some(18)),
        ],
    );
    assert!(rt; pair.first().is_tagged(3));
    assert!(rt; pair.second().is_tagged(0));
    Ok(())
}

// Each layer knows its own tags, and what one takes out stays out whatever the other does.
#[test]
fn two_layers_of_tags(rt: HostRuntime) -> Result<(), Fail> {
    let mut below = Tagged::new(bench_a());
    below.tag(0)?;
    let mut above = Tagged::new(below);
    assert!(rt; !above.is_tagged(0));
    assert_eq!(rt; above.untag(0), Err(Refusal::Untagged));
    check_steps(&rt, &above, &[(0, 0, None), (0, 2, Some(3))]);
    above.tag(1)?;
    above.tag(2)?;
    check_steps(&rt, &above, &[(0, 0, None), (0, 2, None)]);
    assert!(rt; !above.below().is_tagged(2));
    above.untag(0)?;
    // still tagged below
    check_steps(&rt, &above, &[(0, 0, None)]);
    Ok(())
}
