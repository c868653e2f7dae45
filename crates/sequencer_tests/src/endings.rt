// What ends a list, and what spares it.
use crate::samples::{Call, bare, check_accepted, listed, sequencer_a};
use std::test::Fail;

// From 5 to 0 by 1, 1, 3: with both of the first done, a tag on them or on their reverse spares the list.
#[test]
fn a_tag_on_what_is_done(rt: HostRuntime) -> Result<(), Fail> {
    for operation in [0, 1] {
        let mut sequencer = sequencer_a();
        sequencer.hand_move(5)?;
        check_accepted(
            &rt,
            &mut sequencer,
            &[
                (Call::Plan(0, 255, 8), listed(5, &[], 0, 3, &[1, 1, 3])),
                (Call::Done(1), listed(4, &[], 0, 2, &[1, 3])),
                (Call::Done(1), listed(3, &[], 0, 1, &[3])),
                (Call::Tag(operation), listed(3, &[0, 1], 0, 1, &[3])),
                (Call::Done(3), listed(0, &[0, 1], 0, 0, &[])),
            ],
        );
    }
    Ok(())
}

// The operation is done once, and comes again.
#[test]
fn a_tag_on_what_comes_again(rt: HostRuntime) -> Result<(), Fail> {
    let mut sequencer = sequencer_a();
    check_accepted(
        &rt,
        &mut sequencer,
        &[
            (Call::Plan(2, 255, 8), listed(0, &[], 2, 4, &[0, 2, 0, 3])),
            (Call::Done(0), listed(1, &[], 2, 3, &[2, 0, 3])),
            (Call::Tag(0), bare(1, &[0, 1])),
        ],
    );
    Ok(())
}

// With two done, 2 does not come again, but its reverse 3 does.
#[test]
fn a_tag_whose_reverse_comes(rt: HostRuntime) -> Result<(), Fail> {
    let mut sequencer = sequencer_a();
    check_accepted(
        &rt,
        &mut sequencer,
        &[
            (Call::Plan(2, 255, 8), listed(0, &[], 2, 4, &[0, 2, 0, 3])),
            (Call::Done(0), listed(1, &[], 2, 3, &[2, 0, 3])),
            (Call::Done(2), listed(4, &[], 2, 2, &[0, 3])),
            (Call::Tag(2), bare(4, &[2, 3])),
        ],
    );
    Ok(())
}

// From 0 to 4 by 0, 2: a tag on either or on the reverse of either ends the list.
#[test]
fn a_tag_on_what_is_planned(rt: HostRuntime) -> Result<(), Fail> {
    for (operation, tags) in [(0, [0, 1]), (1, [0, 1]), (2, [2, 3]), (3, [2, 3])] {
        let mut sequencer = sequencer_a();
        check_accepted(
            &rt,
            &mut sequencer,
            &[
                (Call::Plan(4, 255, 8), listed(0, &[], 4, 2, &[0, 2])),
                (Call::Tag(operation), bare(0, &tags)),
            ],
        );
    }
    Ok(())
}

// A tag spares a list that has neither the operation nor its reverse, and an untag ends it all the same.
#[test]
fn an_untag(rt: HostRuntime) -> Result<(), Fail> {
    let mut sequencer = sequencer_a();
    check_accepted(
        &rt,
        &mut sequencer,
        &[
            (Call::Plan(1, 255, 8), listed(0, &[], 1, 1, &[0])),
            (Call::Tag(3), listed(0, &[2, 3], 1, 1, &[0])),
            (Call::Untag(2), bare(0, &[])),
        ],
    );
    Ok(())
}

// Also a move to the present setting, and of an empty list.
#[test]
fn a_hand_move(rt: HostRuntime) -> Result<(), Fail> {
    let mut sequencer = sequencer_a();
    check_accepted(
        &rt,
        &mut sequencer,
        &[
            (Call::Plan(4, 255, 8), listed(0, &[], 4, 2, &[0, 2])),
            (Call::HandMove(0), bare(0, &[])),
            (Call::Plan(0, 0, 1), listed(0, &[], 0, 0, &[])),
            (Call::HandMove(0), bare(0, &[])),
            (Call::Plan(4, 255, 8), listed(0, &[], 4, 2, &[0, 2])),
            (Call::HandMove(5), bare(5, &[])),
        ],
    );
    Ok(())
}
