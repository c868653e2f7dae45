// What measure and plan leave in the records: zero after a list and after the refusals 6 and 7, and what they held after 4
// and 5.
use crate::asks::{leg, measure_in, plan_in, used};
use legs::relayed::Relayed;
use sample_plants::bench_a;
use std::test::Fail;

// Whether every record is this one.
pub(crate) fn hold(records: &[Relayed], one: Relayed) -> bool {
    records.iter().all(|record| *record == one)
}

#[test]
fn zero_after_layers(rt: HostRuntime) -> Result<(), Fail> {
    let bench = bench_a();
    let mut place = [0u16; 255];
    let mut records = [used(); 6];
    assert_eq!(rt;
        plan_in(&bench, leg(0, 2, 4), &mut records, &mut place),
        Ok((4, 16))
    );
    assert!(rt; hold(&records, Relayed::default()));
    let mut records = [used(); 3];
    assert_eq!(rt;
        plan_in(&bench, leg(0, 2, 4), &mut records, &mut place),
        Err(6)
    );
    assert!(rt; hold(&records, Relayed::default()));
    let mut records = [used(); 6];
    assert_eq!(rt;
        plan_in(&bench, leg(0, 2, 3), &mut records, &mut place),
        Err(7)
    );
    assert!(rt; hold(&records, Relayed::default()));
    Ok(())
}

#[test]
fn as_they_were_without_layers(rt: HostRuntime) -> Result<(), Fail> {
    let bench = bench_a();
    let mut place = [0u16; 255];
    let mut records = [used(); 6];
    assert_eq!(rt;
        plan_in(&bench, leg(0, 6, 4), &mut records, &mut place),
        Err(4)
    );
    assert_eq!(rt;
        plan_in(&bench, leg(0, 2, 256), &mut records, &mut place),
        Err(5)
    );
    assert!(rt; hold(&records, used()));
    Ok(())
}

#[test]
fn the_same_of_a_measure(rt: HostRuntime) -> Result<(), Fail> {
    let bench = bench_a();
    let mut records = [77u32; 3];
    assert_eq!(rt; measure_in(&bench, leg(0, 6, 4), &mut records), Err(4));
    assert_eq!(rt; measure_in(&bench, leg(0, 2, 256), &mut records), Err(5));
    assert!(rt; records == [77u32; 3]);
    assert_eq!(rt; measure_in(&bench, leg(0, 2, 4), &mut records), Err(6));
    assert!(rt; records == [0u32; 3]);
    let mut records = [77u32; 3];
    assert_eq!(rt; measure_in(&bench, leg(0, 2, 3), &mut records), Err(7));
    assert!(rt; records == [0u32; 3]);
    let mut records = [77u32; 3];
    assert_eq!(rt; measure_in(&bench, leg(0, 1, 1), &mut records), Ok((1, 1)));
    assert!(rt; records == [0u32; 3]);
    Ok(())
}
