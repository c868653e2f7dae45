// Tracks: links from both ends, and the data that make no track.
use crate::samples::{Examples, check_examples, check_size, check_steps, link, track_of};
use sample_plants::ring_with_spur;
use std::process::Abort;
use std::test::Fail;
use track::link::{Link, TrackFault};
use track::track::Track;

// The number of stations, the links, and the first fault of the two.
type Row<'a> = (u16, &'a [Link], TrackFault);

fn check_faults(rt: &impl Abort, rows: &[Row<'_>]) {
    for &(stations, links, fault) in rows {
        assert_eq!(rt; Track::new(stations, links).err(), Some(fault));
    }
}

// Among the steps are stations that are not on the link, and at the end what is out of range.
#[test]
fn links_lead_both_ways(rt: HostRuntime) -> Result<(), Fail> {
    let track = ring_with_spur();
    let along = [
        (0, 0, Some(1)),
        (1, 0, Some(0)),
        (2, 4, Some(4)),
        (4, 4, Some(2)),
    ];
    let examples = Examples {
        settings: 5,
        operations: 5,
        steps: &[(2, 0, None), (0, 4, None), (5, 0, None), (0, 5, None)],
        reverses: &[(0, 0), (4, 4), (5, 5)],
        estimates: &[
            (0, 0, 0),
            (0, 1, 1),
            (0, 4, 1),
            (4, 4, 0),
            (0, 5, 0),
            (5, 0, 0),
        ],
    };
    check_steps(&rt, &track, &along);
    check_examples(&rt, &track, examples);
    assert_eq!(rt; track.link(4), Some(link(2, 4)));
    assert_eq!(rt; track.link(5), None);
    Ok(())
}

#[test]
fn two_links_between_the_same_stations(rt: HostRuntime) -> Result<(), Fail> {
    let track = track_of(2, &[link(0, 1), link(1, 0)])?;
    check_steps(
        &rt,
        &track,
        &[
            (0, 0, Some(1)),
            (1, 0, Some(0)),
            (0, 1, Some(1)),
            (1, 1, Some(0)),
        ],
    );
    Ok(())
}

#[test]
fn the_smallest_and_the_largest_track(rt: HostRuntime) -> Result<(), Fail> {
    check_size(&rt, &track_of(1, &[])?, 1, 0);
    let track = track_of(512, &[link(511, 0); 1024])?;
    check_size(&rt, &track, 512, 1024);
    check_steps(
        &rt,
        &track,
        &[(0, 1023, Some(511)), (511, 1023, Some(0)), (0, 1024, None)],
    );
    Ok(())
}

#[test]
fn data_that_make_no_track(rt: HostRuntime) {
    let good = link(0, 1);
    check_faults(
        &rt,
        &[
            (0, &[], TrackFault::Stations),
            (513, &[], TrackFault::Stations),
            (2, &[good; 1025], TrackFault::Links),
            (2, &[good, link(2, 1)], TrackFault::First(1)),
            (2, &[good, good, link(1, 2)], TrackFault::Second(2)),
            (2, &[link(1, 1)], TrackFault::Same(0)),
        ],
    );
}

// Where several faults are there, the one that is checked first is named.
#[test]
fn the_first_fault(rt: HostRuntime) {
    let wrong = link(9, 9);
    check_faults(
        &rt,
        &[
            (0, &[wrong; 1025], TrackFault::Stations),
            (2, &[wrong; 1025], TrackFault::Links),
            (2, &[wrong], TrackFault::First(0)),
            (2, &[link(0, 9), wrong], TrackFault::Second(0)),
        ],
    );
}
