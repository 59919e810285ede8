use crate::{Case, Figures, Places, Table, Task, Timed, periods_of};
use periods::NotTaken;
use refusals::{Refusal, TaskFault};
use std::test::Fail;

fn timed(work: u16, period: u16, start: u16) -> Timed {
    Timed {
        figures: Figures::new(work, period, period),
        start,
    }
}

fn full() -> Result<Table, Fail> {
    let mut table = Table::new();
    for id in 1..9 {
        table.enter(id, Figures::new(1, 2, 2))?;
    }
    Ok(table)
}

#[test]
fn says_the_first_fault(rt: HostRuntime) {
    assert_eq!(rt;
        Task::form(Figures::new(0, 0, 0)).err(),
        Some(TaskFault::NoWork)
    );
    assert_eq!(rt;
        Task::form(Figures::new(1, 0, 0)).err(),
        Some(TaskFault::LongWork)
    );
    assert_eq!(rt;
        Task::form(Figures::new(1, 0, 1)).err(),
        Some(TaskFault::LateDeadline)
    );
    assert_eq!(rt;
        Task::form(Figures::new(3_000, 2_001, 2_500)).err(),
        Some(TaskFault::LongPeriod)
    );
    assert_eq!(rt; Task::form(Figures::new(2_000, 2_000, 2_000)).err(), None);
}

#[test]
fn keeps_the_order_of_the_ids(rt: HostRuntime) -> Result<(), Fail> {
    let mut table = Table::new();
    table.enter(9, Figures::new(1, 12, 12))?;
    table.enter(4, Figures::new(3, 8, 8))?;
    table.enter(7, Figures::new(6, 12, 12))?;
    assert_eq!(rt; table.place(9), Ok(3));
    table.strike(4)?;
    table.amend(9, Figures::new(2, 24, 24))?;
    assert_eq!(rt; table.id_at(1), Some(7));
    assert_eq!(rt; table.id_at(3), None);
    assert_eq!(rt; table.place(9), Ok(2));
    assert_eq!(rt; table.figures(9), Ok(Figures::new(2, 24, 24)));
    assert_eq!(rt; table.figures(4), Err(Refusal::UnknownId));
    Ok(())
}

#[test]
fn refuses_by_the_smaller_number(rt: HostRuntime) -> Result<(), Fail> {
    let mut table = full()?;
    let none = Figures::new(0, 0, 0);
    assert_eq!(rt; table.enter(0, none), Err(Refusal::ZeroId));
    assert_eq!(rt; table.enter(3, none), Err(Refusal::StandingId));
    assert_eq!(rt;
        table.enter(9, none),
        Err(Refusal::Figures(TaskFault::NoWork))
    );
    assert_eq!(rt;
        table.enter(9, Figures::new(1, 2, 2)),
        Err(Refusal::TooManyTasks)
    );
    assert_eq!(rt; table.amend(9, none), Err(Refusal::UnknownId));
    assert_eq!(rt; table.strike(0), Err(Refusal::ZeroId));
    assert_eq!(rt; table.count(), 8);
    Ok(())
}

#[test]
fn reckons_period_load_and_choices(rt: HostRuntime) -> Result<(), Fail> {
    let mut table = Table::new();
    assert_eq!(rt; table.load(), Err(Refusal::NoTask));
    table.enter(1, Figures::new(3, 8, 8))?;
    table.enter(2, Figures::new(6, 12, 12))?;
    table.enter(3, Figures::new(1, 12, 12))?;
    assert_eq!(rt; table.common_period(), Ok(24));
    assert_eq!(rt; table.load(), Ok(23));
    assert_eq!(rt; table.choices()?.count(), 48);
    Ok(())
}

#[test]
fn gathers_the_periods_of_rows(rt: HostRuntime) -> Result<(), Fail> {
    let row = timed(1, 12, 0);
    assert_eq!(rt; periods_of(&[timed(1, 8, 0), row])?.common_period(), Ok(24));
    assert_eq!(rt; periods_of(&[row; 9]).err(), Some(NotTaken::NoPlace));
    Ok(())
}

#[test]
fn forms_cases(rt: HostRuntime) {
    let good = timed(1, 2, 1);
    assert_eq!(rt; Case::form(&[good; 8]).err(), None);
    assert_eq!(rt; Case::form(&[good; 9]).err(), Some(Refusal::TooManyTasks));
    assert_eq!(rt; Case::form(&[]).err(), Some(Refusal::NoTask));
    assert_eq!(rt;
        Case::form(&[timed(1, 73, 73), timed(1, 137, 0)]).err(),
        Some(Refusal::LongCommonPeriod)
    );
    assert_eq!(rt;
        Case::form(&[good, timed(1, 2, 2)]).err(),
        Some(Refusal::LateStart)
    );
    let faulty = [
        timed(1, 2_001, 0),
        good,
        timed(0, 2, 0),
        good,
        good,
        good,
        good,
        good,
        good,
    ];
    assert_eq!(rt;
        Case::form(&faulty).err(),
        Some(Refusal::Figures(TaskFault::NoWork))
    );
}

#[test]
fn picks_places_by_a_test(rt: HostRuntime) {
    let last = Places::from_fn(|place| place > 6);
    assert!(rt; last.contains(7));
    assert!(rt; !last.contains(6));
    assert!(rt; !last.contains(8));
    let mut first = Places::none();
    first.add(0);
    assert!(rt; first.contains(0));
    assert!(rt; !first.contains(1));
}
