// Two ways of equal length, equal links, a leg that ends in an empty layer, and a later leg that needs more than the first.
use crate::asks::{ask_measure, ask_plan, bench, leg, track};
use crate::place::is_written;
use std::test::Fail;
use track::link::Link;
use valves::interlock::Interlock;

// Round a ring of eight from 0 to 4: the way over 7 begins by link 1, the way over 1 by link 2.
#[test]
fn the_earliest_way(rt: HostRuntime) -> Result<(), Fail> {
    let links = [
        Link { one: 1, other: 2 },
        Link { one: 0, other: 7 },
        Link { one: 0, other: 1 },
        Link { one: 2, other: 3 },
        Link { one: 3, other: 4 },
        Link { one: 4, other: 5 },
        Link { one: 5, other: 6 },
        Link { one: 6, other: 7 },
    ];
    let ring = track(8, &links)?;
    let mut place = [9u16; 255];
    assert_eq!(rt; ask_plan(&ring, leg(0, 4, 255), 5, &mut place), Err(6));
    assert_eq!(rt; ask_plan(&ring, leg(0, 4, 255), 6, &mut place), Ok((4, 20)));
    assert!(rt; is_written(&place, &[1, 7, 6, 5]));
    Ok(())
}

// Links 0 and 1 join the same stations: the lower one is taken, both ways.
#[test]
fn equal_links(rt: HostRuntime) -> Result<(), Fail> {
    let links = [
        Link { one: 0, other: 1 },
        Link { one: 1, other: 0 },
        Link { one: 1, other: 2 },
    ];
    let track = track(3, &links)?;
    let mut place = [9u16; 255];
    assert_eq!(rt; ask_plan(&track, leg(0, 1, 255), 2, &mut place), Ok((1, 1)));
    assert!(rt; is_written(&place, &[0]));
    assert_eq!(rt; ask_plan(&track, leg(2, 0, 255), 3, &mut place), Ok((2, 4)));
    assert!(rt; is_written(&place, &[2, 0]));
    Ok(())
}

// Station 2 has no link: the second layer from 0 is empty.
#[test]
fn an_empty_layer(rt: HostRuntime) -> Result<(), Fail> {
    let track = track(3, &[Link { one: 0, other: 1 }])?;
    assert_eq!(rt; ask_measure(&track, leg(0, 2, 255), 2), Err(7));
    assert_eq!(rt; ask_measure(&track, leg(0, 2, 255), 1), Err(6));
    let mut place = [9u16; 255];
    assert_eq!(rt; ask_plan(&track, leg(0, 2, 255), 2, &mut place), Err(7));
    assert_eq!(rt; ask_plan(&track, leg(0, 2, 255), 1, &mut place), Err(6));
    Ok(())
}

// The first leg needs three records, the leg of the second half four.
#[test]
fn a_later_leg_needs_more(rt: HostRuntime) -> Result<(), Fail> {
    let lock = Interlock {
        valve: 0,
        position: 0,
        other: 1,
        stands: 1,
    };
    let bench = bench(&[2, 2], lock)?;
    assert_eq!(rt; ask_measure(&bench, leg(2, 3, 3), 3), Ok((3, 3)));
    let mut place = [9u16; 255];
    assert_eq!(rt; ask_plan(&bench, leg(2, 3, 3), 3, &mut place), Err(6));
    assert_eq!(rt; ask_plan(&bench, leg(2, 3, 3), 4, &mut place), Ok((3, 9)));
    assert!(rt; is_written(&place, &[3, 0, 2]));
    Ok(())
}
