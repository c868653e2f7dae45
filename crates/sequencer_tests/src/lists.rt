// Lists worked along: one that has an operation twice, the empty one, and the longest.
use crate::samples::{
    Call, bare, check_accepted, check_refused, listed, row_of_stations, sequencer_a,
};
use legs::relayed::Relayed;
use plant::refusal::Refusal;
use sequencer::sequencer::Sequencer;
use std::test::Fail;

// Operation 0 stands in the list twice, and each place is done on its own.
#[test]
fn one_operation_twice(rt: HostRuntime) -> Result<(), Fail> {
    let mut sequencer = sequencer_a();
    check_accepted(
        &rt,
        &mut sequencer,
        &[
            (Call::Plan(2, 255, 8), listed(0, &[], 2, 4, &[0, 2, 0, 3])),
            (Call::Done(0), listed(1, &[], 2, 3, &[2, 0, 3])),
        ],
    );
    check_refused(
        &rt,
        &mut sequencer,
        listed(1, &[], 2, 3, &[2, 0, 3]),
        &[(Call::Done(0), Refusal::WrongOperation)],
    );
    check_accepted(
        &rt,
        &mut sequencer,
        &[
            (Call::Done(2), listed(4, &[], 2, 2, &[0, 3])),
            (Call::Done(0), listed(5, &[], 2, 1, &[3])),
            (Call::Done(3), listed(2, &[], 2, 0, &[])),
            (Call::DropList, bare(2, &[])),
        ],
    );
    Ok(())
}

// The empty list is in hand until it is dropped.
#[test]
fn the_empty_list(rt: HostRuntime) -> Result<(), Fail> {
    let mut sequencer = sequencer_a();
    let told = listed(0, &[], 0, 0, &[]);
    check_accepted(&rt, &mut sequencer, &[(Call::Plan(0, 0, 1), told)]);
    check_refused(
        &rt,
        &mut sequencer,
        told,
        &[
            (Call::Done(0), Refusal::WrongOperation),
            (Call::Done(4), Refusal::WrongOperation),
        ],
    );
    check_accepted(&rt, &mut sequencer, &[(Call::DropList, bare(0, &[]))]);
    check_refused(
        &rt,
        &mut sequencer,
        bare(0, &[]),
        &[(Call::DropList, Refusal::NoList)],
    );
    Ok(())
}

// A plan after a plan: the new list is from the present setting, and the old one is gone.
#[test]
fn a_new_plan(rt: HostRuntime) -> Result<(), Fail> {
    let mut sequencer = sequencer_a();
    check_accepted(
        &rt,
        &mut sequencer,
        &[
            (Call::Plan(2, 255, 8), listed(0, &[], 2, 4, &[0, 2, 0, 3])),
            (Call::Done(0), listed(1, &[], 2, 3, &[2, 0, 3])),
            (Call::Plan(3, 255, 8), listed(1, &[], 3, 2, &[1, 2])),
            (Call::Plan(1, 255, 8), listed(1, &[], 1, 0, &[])),
        ],
    );
    Ok(())
}

// The only list from end to end of the row has 255 operations, as many as a list can have. A leg from its middle has two
// stations in each layer, and needs six records.
#[test]
fn the_longest_list(rt: HostRuntime) -> Result<(), Fail> {
    let mut sequencer = Sequencer::new(row_of_stations(&rt)?);
    let mut records = [Relayed::default(); 6];
    assert_eq!(rt;
        sequencer.plan(255, 255, &mut [Relayed::default(); 5], &mut []),
        Err(Refusal::Overfull)
    );
    assert_eq!(rt;
        sequencer.plan(255, 254, &mut records, &mut []),
        Err(Refusal::OutOfReach)
    );
    let _count = sequencer.plan(255, 255, &mut records, &mut [])?;
    assert_eq!(rt; sequencer.target(), Some(255));
    for place in 0..255u16 {
        assert_eq!(rt; sequencer.length(), Some(255 - place));
        assert_eq!(rt; sequencer.setting(), place as u32);
        assert_eq!(rt; sequencer.operation(0), Some(place));
        assert_eq!(rt; sequencer.operation(255 - place), None);
        sequencer.done(place)?;
    }
    assert_eq!(rt; sequencer.setting(), 255);
    assert_eq!(rt; sequencer.length(), Some(0));
    assert_eq!(rt; sequencer.done(254), Err(Refusal::WrongOperation));
    Ok(())
}
