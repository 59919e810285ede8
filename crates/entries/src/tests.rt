// The list at slices of each length, and the search at each place.
use crate::{Bar, LateRequest, List, first_at_or_after};
use refusals::Refusal;
use std::test::Fail;

const BLANK: Bar = Bar {
    first: 9,
    length: 9,
    id: 9,
};

const IDLE: Bar = Bar {
    first: 0,
    length: 3,
    id: 0,
};

const RUN: Bar = Bar {
    first: 3,
    length: 5,
    id: 2,
};

// Fills the slots anew with two bars.
fn fill(slots: &mut [Bar]) -> Result<usize, Refusal> {
    let mut list = List::new(slots);
    list.clear_for(2)?;
    list.add(IDLE)?;
    list.add(RUN)?;
    Ok(list.len())
}

#[test]
fn a_list_needs_a_slot_for_each_entry(rt: HostRuntime) {
    let mut short = [BLANK];
    assert_eq!(rt; fill(&mut []), Err(Refusal::ListTooShort));
    assert_eq!(rt; fill(&mut short), Err(Refusal::ListTooShort));
    assert_eq!(rt; short, [BLANK]);
    let mut long = [BLANK, BLANK, BLANK];
    assert_eq!(rt; fill(&mut long), Ok(2));
    assert_eq!(rt; long, [IDLE, RUN, BLANK]);
}

#[test]
fn a_full_list_refuses_an_entry(rt: HostRuntime) -> Result<(), Fail> {
    let mut slots = [BLANK];
    let mut list = List::new(&mut slots);
    list.add(IDLE)?;
    assert_eq!(rt; list.add(RUN), Err(Refusal::ListTooShort));
    assert_eq!(rt; list.entries(), [IDLE].as_slice());
    list.clear();
    assert!(rt; list.is_empty());
    assert_eq!(rt; slots, [IDLE]);
    Ok(())
}

#[test]
fn the_first_at_or_after_a_tick_is_found(rt: HostRuntime) {
    let bars = [IDLE, RUN];
    assert_eq!(rt; first_at_or_after(&bars, 0), Some(1));
    assert_eq!(rt; first_at_or_after(&bars, 1), Some(2));
    assert_eq!(rt; first_at_or_after(&bars, 3), Some(2));
    assert_eq!(rt; first_at_or_after(&bars, 4), None);
    let late = LateRequest {
        id: 3,
        request: 0,
        deadline: 12,
    };
    let later = LateRequest {
        id: 5,
        request: 4,
        deadline: 12,
    };
    assert_eq!(rt; first_at_or_after(&[late, later], 12), Some(1));
    assert_eq!(rt; first_at_or_after(&[late, later], 13), None);
}
