// Each call refused for each of its reasons: nothing that the sequencer tells is changed.
use crate::samples::{Call, bare, check_accepted, check_refused, check_told, listed, sequencer_a};
use legs::relayed::Relayed;
use plant::refusal::Refusal;
use sample_plants::bench_a;
use sequencer::sequencer::Sequencer;
use std::test::Fail;

#[test]
fn with_nothing_in_hand(rt: HostRuntime) -> Result<(), Fail> {
    let mut sequencer = sequencer_a();
    check_refused(
        &rt,
        &mut sequencer,
        bare(0, &[]),
        &[
            (Call::Tag(4), Refusal::NoSuchOperation),
            (Call::Tag(65_535), Refusal::NoSuchOperation),
            (Call::Untag(4), Refusal::NoSuchOperation),
            (Call::Untag(0), Refusal::Untagged),
            (Call::Done(0), Refusal::NoList),
            (Call::Done(4), Refusal::NoList),
            (Call::DropList, Refusal::NoList),
            (Call::HandMove(6), Refusal::NoSuchSetting),
        ],
    );
    Ok(())
}

#[test]
fn with_tags(rt: HostRuntime) -> Result<(), Fail> {
    let mut sequencer = sequencer_a();
    sequencer.tag(1)?;
    check_refused(
        &rt,
        &mut sequencer,
        bare(0, &[0, 1]),
        &[
            (Call::Tag(0), Refusal::TaggedAlready),
            (Call::Tag(1), Refusal::TaggedAlready),
            (Call::Tag(4), Refusal::NoSuchOperation),
            (Call::Untag(2), Refusal::Untagged),
            (Call::Untag(3), Refusal::Untagged),
            (Call::Untag(4), Refusal::NoSuchOperation),
            (Call::Plan(1, 255, 8), Refusal::OutOfReach),
        ],
    );
    Ok(())
}

#[test]
fn with_a_list_in_hand(rt: HostRuntime) -> Result<(), Fail> {
    let mut sequencer = sequencer_a();
    let told = listed(0, &[], 2, 4, &[0, 2, 0, 3]);
    check_accepted(&rt, &mut sequencer, &[(Call::Plan(2, 4, 8), told)]);
    check_refused(
        &rt,
        &mut sequencer,
        told,
        &[
            (Call::Done(2), Refusal::WrongOperation),
            (Call::Done(1), Refusal::WrongOperation),
            (Call::Done(4), Refusal::WrongOperation),
            (Call::HandMove(6), Refusal::NoSuchSetting),
            (Call::Tag(4), Refusal::NoSuchOperation),
            (Call::Untag(0), Refusal::Untagged),
        ],
    );
    Ok(())
}

// The old list and its target stay. Where a plan has several reasons, the first in the order of the checks is given.
#[test]
fn refused_plans_keep_the_old_list(rt: HostRuntime) -> Result<(), Fail> {
    let mut sequencer = sequencer_a();
    let told = listed(0, &[], 4, 2, &[0, 2]);
    check_accepted(&rt, &mut sequencer, &[(Call::Plan(4, 255, 8), told)]);
    check_refused(
        &rt,
        &mut sequencer,
        told,
        &[
            (Call::Plan(6, 255, 8), Refusal::NoSuchSetting),
            (Call::Plan(6, 256, 0), Refusal::NoSuchSetting),
            (Call::Plan(2, 256, 8), Refusal::Bound),
            (Call::Plan(2, 256, 0), Refusal::Bound),
            (Call::Plan(2, 255, 1), Refusal::Overfull),
            (Call::Plan(0, 0, 0), Refusal::Overfull),
            (Call::Plan(2, 3, 0), Refusal::Overfull),
            (Call::Plan(2, 3, 8), Refusal::OutOfReach),
            (Call::Plan(1, 0, 8), Refusal::OutOfReach),
        ],
    );
    Ok(())
}

// Where a plan is refused for its target or its bound the records stay as they were, and else they are zero after it.
#[test]
fn records_of_refused_plans(rt: HostRuntime) -> Result<(), Fail> {
    let mut sequencer = Sequencer::new(bench_a());
    let filled = Relayed {
        setting: 5,
        relay: 7,
    };
    let mut records = [filled; 4];
    assert_eq!(rt;
        sequencer.plan(6, 4, &mut records, &mut []),
        Err(Refusal::NoSuchSetting)
    );
    assert_eq!(rt; records[3], filled);
    assert_eq!(rt;
        sequencer.plan(2, 256, &mut records, &mut []),
        Err(Refusal::Bound)
    );
    assert_eq!(rt; records[3], filled);
    assert_eq!(rt;
        sequencer.plan(2, 3, &mut records, &mut []),
        Err(Refusal::OutOfReach)
    );
    assert_eq!(rt; records[3], Relayed::default());
    check_told(&rt, &sequencer, bare(0, &[]));
    Ok(())
}
