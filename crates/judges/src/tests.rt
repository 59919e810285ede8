use crate::{Judge, Margin, MeasuringJudge, Screen, Tick, WorstStart};
use refusals::Refusal;
use std::test::Fail;
use tasks::{Case, Figures, Places, Timed};

fn task(work: u16, period: u16) -> Timed {
    Timed {
        figures: Figures::new(work, period, period),
        start: 0,
    }
}

#[test]
fn worst_start_counts_what_comes_from_above(rt: HostRuntime) -> Result<(), Fail> {
    let case = Case::form(&[task(3, 8), task(6, 12), task(1, 12)])?;
    let none = Places::none();
    let first = Places::from_fn(|place| place == 0);
    let two = Places::from_fn(|place| place < 2);
    assert_eq!(rt; WorstStart.response(case.judged(0, &none)), Some(3));
    assert_eq!(rt; WorstStart.response(case.judged(1, &first)), Some(12));
    assert_eq!(rt; WorstStart.response(case.judged(2, &two)), None);
    assert_eq!(rt; WorstStart.response(case.judged(3, &first)), None);
    Ok(())
}

#[test]
fn tick_counts_the_starts(rt: HostRuntime) -> Result<(), Fail> {
    let every = Places::from_fn(|place| [0, 1, 2, 7].contains(&place));
    let common = Case::form(&[task(3, 8), task(6, 12), task(1, 12)])?;
    assert!(rt; !Tick.rule(common.judged(2, &every)));
    assert!(rt; !WorstStart.rule(common.judged(2, &every)));
    let mut late = task(1, 12);
    late.start = 10;
    let apart = Case::form(&[task(3, 8), task(6, 12), late])?;
    assert!(rt; Tick.rule(apart.judged(2, &every)));
    assert_eq!(rt; Tick.response(apart.judged(2, &every)), Some(12));
    assert!(rt; !WorstStart.rule(apart.judged(2, &every)));
    assert!(rt; !Tick.rule(apart.judged(3, &every)));
    assert!(rt; Margin::new(0, Tick)?.rule(apart.judged(2, &every)));
    assert!(rt; !Margin::new(100, Tick)?.rule(apart.judged(2, &every)));
    Ok(())
}

#[test]
fn margin_rounds_up_each_time(rt: HostRuntime) -> Result<(), Fail> {
    let alone = Places::none();
    let case = Case::form(&[task(11, 14)])?;
    assert_eq!(rt;
        Margin::new(21, WorstStart)?.response(case.judged(0, &alone)),
        Some(14)
    );
    let twice = Margin::new(10, Margin::new(10, WorstStart)?)?;
    assert_eq!(rt; twice.response(case.judged(0, &alone)), None);
    assert!(rt; Screen { judge: twice }.rule(case.judged(0, &alone)));
    Ok(())
}

#[test]
fn margin_is_at_most_a_hundred(rt: HostRuntime) {
    assert!(rt; Margin::new(100, WorstStart).is_ok());
    assert!(rt; Margin::new(101, WorstStart).is_err());
    assert_eq!(rt; Refusal::LargeMargin.number(), 10);
}
