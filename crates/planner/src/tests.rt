use crate::{Assignment, Order, Plan, Trial, plan_for, search};
use judges::{Judge, Tick, WorstStart};
use refusals::Refusal;
use std::test::Fail;
use tasks::{Figures, Table};

#[test]
fn a_trial_is_undone_unless_kept(rt: HostRuntime) {
    let mut order = Order::new(3);
    {
        let _trial = Trial::open(&mut order, 0, 2);
    }
    assert_eq!(rt; order.level(0), Some(1));
    Trial::open(&mut order, 0, 2).keep();
    assert_eq!(rt; order.level(0), Some(3));
    assert_eq!(rt; order.place_at(0), Some(2));
    assert_eq!(rt; order.place_at(3), None);
}

#[test]
fn positions_past_the_last_stay(rt: HostRuntime) {
    let mut order = Order::new(9);
    assert_eq!(rt; order.count(), 8);
    Trial::open(&mut order, 7, 8).keep();
    assert_eq!(rt; order.level(7), Some(8));
}

// A table of these tasks.
fn table_of(tasks: &[Figures]) -> Result<Table, Refusal> {
    let mut table = Table::new();
    for (id, figures) in (1..=u8::MAX).zip(tasks) {
        table.enter(id, *figures)?;
    }
    Ok(table)
}

fn planned<J: Judge>(judge: &J, tasks: &[Figures]) -> Result<Plan, Refusal> {
    plan_for(judge, &table_of(tasks)?)
}

fn refused<J: Judge>(judge: &J, tasks: &[Figures]) -> Option<Refusal> {
    planned(judge, tasks).err()
}

#[test]
fn starts_apart_where_the_common_start_fails(rt: HostRuntime) -> Result<(), Fail> {
    let plan = planned(&Tick, &[Figures::new(1, 2, 1), Figures::new(1, 2, 1)])?;
    assert_eq!(rt; (plan.start(0), plan.start(1)), (Some(0), Some(1)));
    let given = [(0, 1), (1, 2)].map(|(start, level)| Assignment { start, level });
    assert_eq!(rt; plan.assignments(), given.as_slice());
    assert_eq!(rt; (plan.level(0), plan.level(1)), (Some(1), Some(2)));
    let plan = planned(&Tick, &[Figures::new(1, 2, 1), Figures::new(2, 4, 3)])?;
    assert_eq!(rt; (plan.start(0), plan.start(1)), (Some(0), Some(1)));
    assert!(rt;
        planned(
            &Tick,
            &[
                Figures::new(1, 5, 5),
                Figures::new(1, 3, 1),
                Figures::new(1, 3, 1)
            ]
        )
        .is_ok()
    );
    Ok(())
}

#[test]
fn says_why_there_is_no_plan(rt: HostRuntime) {
    assert_eq!(rt; refused(&Tick, &[]), Some(Refusal::NoTask));
    assert_eq!(rt;
        refused(&Tick, &[Figures::new(1, 2, 1), Figures::new(1, 3, 1)]),
        Some(Refusal::NoPlan)
    );
    assert_eq!(rt;
        refused(&Tick, &[Figures::new(1, 2, 1), Figures::new(2, 4, 2)]),
        Some(Refusal::NoPlan)
    );
    assert_eq!(rt;
        refused(&Tick, &[Figures::new(2, 2, 2), Figures::new(1, 3, 3)]),
        Some(Refusal::Overload)
    );
    let three = [
        Figures::new(3, 8, 8),
        Figures::new(6, 12, 12),
        Figures::new(1, 12, 12),
    ];
    assert_eq!(rt; refused(&Tick, &three), None);
    assert_eq!(rt; refused(&WorstStart, &three), Some(Refusal::NoPlan));
}

#[test]
fn searches_whatever_the_load(rt: HostRuntime) -> Result<(), Fail> {
    let overloaded = table_of(&[Figures::new(2, 2, 2), Figures::new(1, 3, 3)])?;
    assert!(rt; search(&Tick, &overloaded)?.is_none());
    let light = table_of(&[Figures::new(1, 2, 1), Figures::new(1, 2, 1)])?;
    assert!(rt; search(&Tick, &light)?.is_some());
    assert_eq!(rt; search(&Tick, &Table::new()).err(), Some(Refusal::NoTask));
    Ok(())
}
