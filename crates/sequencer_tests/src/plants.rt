// Sequencers over other plants: with tags below, a pair, and one without operations.
use crate::samples::{Call, bare, check_accepted, check_refused, listed, track_of};
use pair::pair::Pair;
use plant::refusal::Refusal;
use sample_plants::bench_a;
use sequencer::sequencer::Sequencer;
use std::test::Fail;
use tagged::tagged::Tagged;
use track::link::Link;

// A tag below is not one of the sequencer's. Its plans do without the operation, and it can tag it too.
#[test]
fn tags_below(rt: HostRuntime) -> Result<(), Fail> {
    let mut below = Tagged::new(bench_a());
    below.tag(2)?;
    let mut sequencer = Sequencer::new(below);
    check_refused(
        &rt,
        &mut sequencer,
        bare(0, &[]),
        &[
            (Call::Untag(2), Refusal::Untagged),
            (Call::Plan(3, 255, 8), Refusal::OutOfReach),
        ],
    );
    check_accepted(
        &rt,
        &mut sequencer,
        &[
            (Call::Plan(1, 255, 8), listed(0, &[], 1, 1, &[0])),
            (Call::Tag(3), listed(0, &[2, 3], 1, 1, &[0])),
            (Call::Untag(2), bare(0, &[])),
        ],
    );
    check_refused(
        &rt,
        &mut sequencer,
        bare(0, &[]),
        &[(Call::Plan(3, 255, 8), Refusal::OutOfReach)],
    );
    Ok(())
}

// The sequencer's tag and the one below are told apart: only the one below is left when it takes its own off.
#[test]
fn tags_of_its_own(rt: HostRuntime) -> Result<(), Fail> {
    let mut below = Tagged::new(bench_a());
    below.tag(2)?;
    let mut sequencer = Sequencer::new(below);
    check_accepted(&rt, &mut sequencer, &[(Call::Tag(0), bare(0, &[0, 1]))]);
    check_refused(
        &rt,
        &mut sequencer,
        bare(0, &[0, 1]),
        &[
            (Call::Plan(1, 255, 8), Refusal::OutOfReach),
            (Call::Untag(3), Refusal::Untagged),
        ],
    );
    check_accepted(
        &rt,
        &mut sequencer,
        &[
            (Call::Untag(1), bare(0, &[])),
            (Call::Plan(1, 255, 8), listed(0, &[], 1, 1, &[0])),
        ],
    );
    Ok(())
}

// Bench A beside two stations and the link between them: operation 4 is the link, and is its own reverse. The setting is
// the bench's plus 6 times the station.
#[test]
fn a_pair(rt: HostRuntime) -> Result<(), Fail> {
    let track = track_of(2, &[Link { one: 0, other: 1 }])?;
    let mut sequencer = Sequencer::new(Pair::new(bench_a(), track));
    check_accepted(
        &rt,
        &mut sequencer,
        &[
            (Call::Plan(10, 255, 12), listed(0, &[], 10, 3, &[0, 2, 4])),
            (Call::Done(0), listed(1, &[], 10, 2, &[2, 4])),
            (Call::Done(2), listed(4, &[], 10, 1, &[4])),
            (Call::Done(4), listed(10, &[], 10, 0, &[])),
            (Call::Tag(4), listed(10, &[4], 10, 0, &[])),
        ],
    );
    check_refused(
        &rt,
        &mut sequencer,
        listed(10, &[4], 10, 0, &[]),
        &[
            (Call::Plan(0, 255, 12), Refusal::OutOfReach),
            (Call::Tag(5), Refusal::NoSuchOperation),
            (Call::HandMove(12), Refusal::NoSuchSetting),
        ],
    );
    Ok(())
}

// One station and no link.
#[test]
fn no_operations(rt: HostRuntime) -> Result<(), Fail> {
    let mut sequencer = Sequencer::new(track_of(1, &[])?);
    check_accepted(
        &rt,
        &mut sequencer,
        &[(Call::Plan(0, 0, 1), listed(0, &[], 0, 0, &[]))],
    );
    check_refused(
        &rt,
        &mut sequencer,
        listed(0, &[], 0, 0, &[]),
        &[
            (Call::Tag(0), Refusal::NoSuchOperation),
            (Call::Untag(0), Refusal::NoSuchOperation),
            (Call::Done(0), Refusal::WrongOperation),
            (Call::Plan(1, 255, 8), Refusal::NoSuchSetting),
            (Call::HandMove(1), Refusal::NoSuchSetting),
        ],
    );
    check_accepted(&rt, &mut sequencer, &[(Call::HandMove(0), bare(0, &[]))]);
    Ok(())
}
