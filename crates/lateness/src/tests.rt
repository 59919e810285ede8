use crate::{late_below, runs_at, worst_response};
use std::test::Fail;
use tasks::{Case, Figures, Places, Timed};

fn timed(work: u16, period: u16, deadline: u16, start: u16) -> Timed {
    Timed {
        figures: Figures::new(work, period, deadline),
        start,
    }
}

#[test]
fn finds_late_requests(rt: HostRuntime) -> Result<(), Fail> {
    // The first late deadline is 9, past the largest start and one common period.
    let case = Case::form(&[timed(2, 3, 2, 2), timed(2, 6, 3, 0)])?;
    let none = Places::none();
    let first = Places::from_fn(|place| place == 0);
    let two = Places::from_fn(|place| place < 2);
    let apart = Places::from_fn(|place| place == 1 || place == 7);
    assert!(rt; late_below(case.judged(1, &first)));
    assert_eq!(rt; worst_response(case.judged(1, &first)), None);
    assert!(rt; !late_below(case.judged(1, &apart)));
    assert_eq!(rt; worst_response(case.judged(1, &apart)), Some(2));
    assert!(rt; !late_below(case.judged(2, &two)));
    assert_eq!(rt; worst_response(case.judged(2, &two)), None);
    let full = Case::form(&[timed(2, 2, 2, 0), timed(1, 3, 3, 0)])?;
    assert!(rt; late_below(full.judged(1, &first)));
    assert!(rt; !late_below(full.judged(0, &none)));
    Ok(())
}

#[test]
fn finds_worst_responses(rt: HostRuntime) -> Result<(), Fail> {
    let case = Case::form(&[timed(3, 8, 8, 0), timed(6, 12, 12, 0), timed(1, 12, 12, 10)])?;
    let none = Places::none();
    let first = Places::from_fn(|place| place == 0);
    let two = Places::from_fn(|place| place < 2);
    assert_eq!(rt; worst_response(case.judged(0, &none)), Some(3));
    assert_eq!(rt; worst_response(case.judged(1, &first)), Some(12));
    assert_eq!(rt; worst_response(case.judged(2, &two)), Some(12));
    let other = Case::form(&[timed(2, 3, 3, 2), timed(2, 9, 9, 0), timed(1, 9, 6, 3)])?;
    assert_eq!(rt; worst_response(other.judged(2, &two)), Some(5));
    Ok(())
}

#[test]
fn tells_who_runs(rt: HostRuntime) -> Result<(), Fail> {
    let case = Case::form(&[timed(3, 8, 8, 0), timed(6, 12, 12, 0), timed(1, 12, 12, 10)])?;
    assert_eq!(rt; runs_at(&case, &[1, 2, 3], 22), Some(Some(2)));
    assert_eq!(rt; runs_at(&case, &[1, 2, 3], 23), Some(None));
    assert_eq!(rt; runs_at(&case, &[3, 2, 1], 0), Some(Some(1)));
    assert_eq!(rt; runs_at(&case, &[3, 2, 1], 1_000_000), None);
    assert_eq!(rt; runs_at(&case, &[1, 2], 0), None);
    assert_eq!(rt; runs_at(&case, &[1, 1, 3], 0), None);
    assert_eq!(rt; runs_at(&case, &[0, 1, 2], 0), None);
    Ok(())
}
