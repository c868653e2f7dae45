// The same answers with every index: none, one number, enough for chains, and enough for marks.
use crate::asks::{leg, measured, planned, track, used};
use crate::place::{is_all, is_written};
use legs::leg::Leg;
use legs::relayed::Relayed;
use measure::measure;
use plan::planning::plan;
use std::test::Fail;
use track::link::Link;
use track::track::Track;

// A ring of eight among five hundred stations, of which the others have no link: 16 numbers have a bit for each.
fn ring() -> Result<Track, Fail> {
    let links = [
        Link { one: 1, other: 2 },
        Link { one: 0, other: 7 },
        Link { one: 0, other: 1 },
        Link { one: 2, other: 3 },
        Link { one: 3, other: 4 },
        Link { one: 4, other: 5 },
        Link { one: 5, other: 6 },
        Link { one: 6, other: 7 },
    ];
    track(500, &links)
}

// Stays: numbers for refusals, as in `asks`.
// Lends so many numbers, at most 16, that hold places of records at first.
fn measure_lent(
    ring: &Track,
    leg: Leg,
    records: &mut [u32],
    lent: usize,
) -> Result<(u16, u64), u8> {
    let mut index = [2u32; 16];
    measured(measure(ring, leg, records, &mut index[..lent.min(16)]))
}

// With six records, and what it left in them.
fn plan_six(
    ring: &Track,
    leg: Leg,
    lent: usize,
    place: &mut [u16; 255],
) -> (Result<(u16, u64), u8>, [Relayed; 6]) {
    let mut records = [used(); 6];
    let mut index = [2u32; 16];
    let answer = plan(ring, leg, &mut records, &mut index[..lent.min(16)], place);
    (planned(answer), records)
}

// With six records: none and 1 look at every record, 7 make chains in one bucket, 15 in nine, and 16 are marks.
const LENT: [usize; 5] = [0, 1, 7, 15, 16];

#[test]
fn the_same_list(rt: HostRuntime) -> Result<(), Fail> {
    let ring = ring()?;
    for lent in LENT {
        let mut place = [9u16; 255];
        assert_eq!(rt;
            plan_six(&ring, leg(0, 4, 255), lent, &mut place),
            (Ok((4, 20)), [Relayed::default(); 6])
        );
        assert!(rt; is_written(&place, &[1, 7, 6, 5]));
    }
    Ok(())
}

#[test]
fn the_same_refusals(rt: HostRuntime) -> Result<(), Fail> {
    let ring = ring()?;
    for lent in LENT {
        let mut place = [9u16; 255];
        assert_eq!(rt;
            plan_six(&ring, leg(0, 4, 3), lent, &mut place),
            (Err(7), [Relayed::default(); 6])
        );
        assert_eq!(rt;
            plan_six(&ring, leg(0, 9, 255), lent, &mut place),
            (Err(7), [Relayed::default(); 6])
        );
        assert!(rt; is_all(&place, 9));
    }
    Ok(())
}

#[test]
fn the_same_measure(rt: HostRuntime) -> Result<(), Fail> {
    let ring = ring()?;
    for lent in LENT {
        let mut records = [77u32; 6];
        assert_eq!(rt;
            measure_lent(&ring, leg(0, 4, 255), &mut records, lent),
            Ok((4, 7))
        );
        assert!(rt; records == [0u32; 6]);
        let mut records = [77u32; 5];
        assert_eq!(rt;
            measure_lent(&ring, leg(0, 4, 255), &mut records, lent),
            Err(6)
        );
        assert!(rt; records == [0u32; 5]);
    }
    Ok(())
}
