// The plants of the tests, calls and what a sequencer tells, and checks of the one against the other.
use legs::relayed::Relayed;
use plant::plant::Plant;
use plant::refusal::Refusal;
use sample_plants::bench_a;
use sequencer::sequencer::Sequencer;
use std::process::Abort;
use std::test::Fail;
use track::link::Link;
use track::track::Track;
use valves::bench::Bench;

// A sequencer over bench A.
pub(crate) fn sequencer_a() -> Sequencer<Bench> {
    Sequencer::new(bench_a())
}

pub(crate) fn track_of(stations: u16, links: &[Link]) -> Result<Track, Fail> {
    Ok(Track::new(stations, links)?)
}

// 256 stations in a row: operation 0 joins 0 and 1, and operation 254 joins 254 and 255.
pub(crate) fn row_of_stations(rt: &HostRuntime) -> Result<Track, Fail> {
    let mut links = Vec::new(rt.alloc());
    for one in 0..255u16 {
        let _ = links.push(Link {
            one,
            other: one + 1,
        });
    }
    track_of(256, links.as_slice())
}

// The most records that a call is lent.
pub const RECORDS: usize = 12;

// A call of a sequencer. A plan has its target, its bound, and how many records it is lent.
#[derive(Clone, Copy)]
pub enum Call {
    Tag(u16),
    Untag(u16),
    Plan(u32, u16, usize),
    Done(u16),
    DropList,
    HandMove(u32),
}

// Makes the call.
fn answer<P: Plant>(sequencer: &mut Sequencer<P>, call: Call) -> Result<(), Refusal> {
    match call {
        Call::Tag(operation) => sequencer.tag(operation),
        Call::Untag(operation) => sequencer.untag(operation),
        Call::Plan(target, bound, lent) => plan(sequencer, target, bound, lent),
        Call::Done(operation) => sequencer.done(operation),
        Call::DropList => sequencer.drop_list(),
        Call::HandMove(setting) => sequencer.hand_move(setting),
    }
}

// Plans with so many records, at most `RECORDS`.
fn plan<P: Plant>(
    sequencer: &mut Sequencer<P>,
    target: u32,
    bound: u16,
    lent: usize,
) -> Result<(), Refusal> {
    let mut records = [Relayed::default(); RECORDS];
    let _count = sequencer.plan(target, bound, &mut records[..lent.min(RECORDS)], &mut [])?;
    Ok(())
}

// What a sequencer tells: the setting, the tagged operations, and the list in hand with its target. The list is empty
// where none is in hand.
#[derive(Clone, Copy)]
pub struct Told<'a> {
    pub setting: u32,
    pub tags: &'a [u16],
    pub target: Option<u32>,
    pub length: Option<u16>,
    pub list: &'a [u16],
}

// Told where no list is in hand.
pub(crate) fn bare(setting: u32, tags: &[u16]) -> Told<'_> {
    Told {
        setting,
        tags,
        target: None,
        length: None,
        list: &[],
    }
}

// Told of a list in hand, with the number of its operations.
pub(crate) fn listed<'a>(
    setting: u32,
    tags: &'a [u16],
    target: u32,
    length: u16,
    list: &'a [u16],
) -> Told<'a> {
    Told {
        setting,
        tags,
        target: Some(target),
        length: Some(length),
        list,
    }
}

// Operations and places that are looked at: more than any list in these tables has, and than any plant but a track has.
const LOOKED: u16 = 12;

// The answers to all questions.
pub(crate) fn check_told<P: Plant>(rt: &impl Abort, sequencer: &Sequencer<P>, told: Told<'_>) {
    assert_eq!(rt; sequencer.setting(), told.setting);
    assert_eq!(rt; sequencer.target(), told.target);
    assert_eq!(rt; sequencer.length(), told.length);
    // Stays: a sequencer is asked by number, also past the end of what is told.
    for number in 0..LOOKED {
        assert_eq!(rt;
            sequencer.is_tagged(number),
            told.tags.contains(&number),
            "tag of {number}"
        );
        assert_eq!(rt;
            sequencer.operation(number),
            told.list.get(number as usize).copied(),
            "place {number}"
        );
    }
}

// Calls that are accepted, with what is told after each.
pub(crate) fn check_accepted<P: Plant>(
    rt: &impl Abort,
    sequencer: &mut Sequencer<P>,
    rows: &[(Call, Told<'_>)],
) {
    for &(call, told) in rows {
        assert_eq!(rt; answer(sequencer, call), Ok(()));
        check_told(rt, sequencer, told);
    }
}

// Calls that are refused; the same is told before and after each.
pub(crate) fn check_refused<P: Plant>(
    rt: &impl Abort,
    sequencer: &mut Sequencer<P>,
    told: Told<'_>,
    rows: &[(Call, Refusal)],
) {
    check_told(rt, sequencer, told);
    for &(call, refusal) in rows {
        assert_eq!(rt; answer(sequencer, call), Err(refusal));
        check_told(rt, sequencer, told);
    }
}
