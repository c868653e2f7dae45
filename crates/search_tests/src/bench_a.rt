// Measures and plans on bench A.
use crate::asks::{ask_measure, ask_plan, leg};
use crate::place::{is_all, is_written};
use crate::unguided::Unguided;
use sample_plants::bench_a;
use std::test::Fail;

#[test]
fn plans_the_list(rt: HostRuntime) -> Result<(), Fail> {
    let bench = bench_a();
    let mut place = [9u16; 255];
    assert_eq!(rt; ask_plan(&bench, leg(0, 2, 4), 4, &mut place), Ok((4, 16)));
    assert!(rt; is_written(&place, &[0, 2, 0, 3]));
    assert_eq!(rt;
        ask_plan(&bench, leg(0, 5, 255), 4, &mut place),
        Ok((3, 10))
    );
    assert!(rt; is_written(&place, &[0, 2, 0]));
    Ok(())
}

#[test]
fn measures_the_leg(rt: HostRuntime) -> Result<(), Fail> {
    let bench = bench_a();
    assert_eq!(rt; ask_measure(&bench, leg(0, 2, 4), 4), Ok((4, 5)));
    assert_eq!(rt; ask_measure(&bench, leg(0, 2, 4), 3), Err(6));
    assert_eq!(rt; ask_measure(&bench, leg(0, 2, 3), 2), Err(7));
    assert_eq!(rt; ask_measure(&bench, leg(0, 2, 3), 1), Err(6));
    Ok(())
}

// The place stays as it was after each refusal.
#[test]
fn refuses_plans(rt: HostRuntime) -> Result<(), Fail> {
    let bench = bench_a();
    let mut place = [9u16; 255];
    assert_eq!(rt; ask_plan(&bench, leg(0, 6, 255), 4, &mut place), Err(4));
    assert_eq!(rt; ask_plan(&bench, leg(6, 0, 256), 4, &mut place), Err(4));
    assert_eq!(rt; ask_plan(&bench, leg(0, 2, 256), 4, &mut place), Err(5));
    assert_eq!(rt; ask_plan(&bench, leg(0, 2, 4), 3, &mut place), Err(6));
    assert_eq!(rt; ask_plan(&bench, leg(0, 2, 3), 1, &mut place), Err(6));
    assert_eq!(rt; ask_plan(&bench, leg(0, 2, 3), 2, &mut place), Err(7));
    assert!(rt; is_all(&place, 9));
    Ok(())
}

// A bound of 0: only the start itself is within it, and one record is needed to tell.
#[test]
fn plans_in_place(rt: HostRuntime) -> Result<(), Fail> {
    let bench = bench_a();
    let mut place = [9u16; 255];
    assert_eq!(rt; ask_plan(&bench, leg(0, 0, 0), 0, &mut place), Err(6));
    assert_eq!(rt; ask_plan(&bench, leg(0, 1, 0), 0, &mut place), Err(6));
    assert_eq!(rt; ask_plan(&bench, leg(0, 1, 0), 1, &mut place), Err(7));
    assert!(rt; is_all(&place, 9));
    assert_eq!(rt; ask_plan(&bench, leg(0, 0, 0), 1, &mut place), Ok((0, 0)));
    assert!(rt; is_all(&place, 0));
    Ok(())
}

// Without an estimate nothing is cut before the bound: legs need more records and expand more, and the list is the same.
#[test]
fn plans_without_an_estimate(rt: HostRuntime) -> Result<(), Fail> {
    let bench = Unguided { below: bench_a() };
    let mut place = [9u16; 255];
    assert_eq!(rt; ask_measure(&bench, leg(0, 2, 3), 3), Err(6));
    assert_eq!(rt; ask_measure(&bench, leg(0, 2, 3), 4), Err(7));
    assert_eq!(rt; ask_measure(&bench, leg(0, 2, 4), 4), Ok((4, 5)));
    assert_eq!(rt; ask_plan(&bench, leg(0, 2, 4), 5, &mut place), Err(6));
    assert_eq!(rt; ask_plan(&bench, leg(0, 2, 4), 6, &mut place), Ok((4, 17)));
    assert!(rt; is_written(&place, &[0, 2, 0, 3]));
    Ok(())
}
