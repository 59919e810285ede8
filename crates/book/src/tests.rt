// Every refusal of every call, where several apply the smallest, and what the calls leave.
use crate::Book;
use entries::{Bar, List};
use judges::{Judge, MeasuringJudge, Tick, WorstStart};
use refusals::{Refusal, TaskFault};
use std::test::Fail;
use tasks::Figures;

// A book with these tasks, under the ids from 1 on.
fn book_of<J: Judge + Drop>(judge: J, tasks: &[Figures]) -> Result<Book<J>, Refusal> {
    let mut book = Book::open(judge);
    for (id, figures) in (1..=u8::MAX).zip(tasks) {
        book.enter(id, *figures)?;
    }
    Ok(book)
}

fn polisher() -> Result<Book<Tick>, Refusal> {
    book_of(
        Tick,
        &[
            Figures::new(3, 8, 8),
            Figures::new(6, 12, 12),
            Figures::new(1, 12, 12),
        ],
    )
}

// Figures that break each rule, and the later ones too where they can.
fn unfair() -> [(Figures, TaskFault); 4] {
    [
        (Figures::new(0, 2_001, 2_002), TaskFault::NoWork),
        (Figures::new(9, 2_001, 2_002), TaskFault::LongPeriod),
        (Figures::new(9, 4, 5), TaskFault::LateDeadline),
        (Figures::new(5, 4, 4), TaskFault::LongWork),
    ]
}

fn faulty(fault: TaskFault) -> Result<(), Refusal> {
    Err(Refusal::Figures(fault))
}

#[test]
fn enter_refuses_by_the_smallest_number(rt: HostRuntime) -> Result<(), Fail> {
    let good = Figures::new(1, 4, 4);
    let mut book = book_of(Tick, &[good; 7])?;
    assert_eq!(rt; book.enter(0, Figures::new(0, 0, 0)), Err(Refusal::ZeroId));
    assert_eq!(rt;
        book.enter(7, Figures::new(0, 0, 0)),
        Err(Refusal::StandingId)
    );
    for (figures, fault) in unfair() {
        assert_eq!(rt; book.enter(8, figures), faulty(fault));
    }
    assert_eq!(rt; book.enter(8, good), Ok(()));
    assert_eq!(rt;
        book.enter(9, Figures::new(5, 4, 4)),
        faulty(TaskFault::LongWork)
    );
    assert_eq!(rt; book.enter(8, good), Err(Refusal::StandingId));
    assert_eq!(rt; book.enter(9, good), Err(Refusal::TooManyTasks));
    assert_eq!(rt; book.table().count(), 8);
    Ok(())
}

#[test]
fn amend_and_strike_refuse_by_the_smallest_number(rt: HostRuntime) -> Result<(), Fail> {
    let mut book = polisher()?;
    assert_eq!(rt; book.amend(0, Figures::new(0, 0, 0)), Err(Refusal::ZeroId));
    assert_eq!(rt;
        book.amend(4, Figures::new(0, 0, 0)),
        Err(Refusal::UnknownId)
    );
    for (figures, fault) in unfair() {
        assert_eq!(rt; book.amend(3, figures), faulty(fault));
    }
    assert_eq!(rt; book.strike(0), Err(Refusal::ZeroId));
    assert_eq!(rt; book.strike(4), Err(Refusal::UnknownId));
    assert_eq!(rt; book.table().load(), Ok(23));
    assert_eq!(rt; book.amend(3, Figures::new(2, 12, 10)), Ok(()));
    assert_eq!(rt; book.table().load(), Ok(25));
    assert_eq!(rt; book.strike(2), Ok(()));
    assert_eq!(rt; book.table().id_at(2), Some(3));
    Ok(())
}

fn planned<J: Judge + Drop>(judge: J, tasks: &[Figures]) -> Result<(), Refusal> {
    book_of(judge, tasks)?.plan()
}

#[test]
fn plan_says_why_there_is_none(rt: HostRuntime) {
    let whole = [
        Figures::new(3, 8, 8),
        Figures::new(6, 12, 12),
        Figures::new(1, 12, 12),
    ];
    let shares = [Figures::new(40, 100, 100); 4];
    assert_eq!(rt; planned(Tick, &[]), Err(Refusal::NoTask));
    assert_eq!(rt;
        planned(
            Tick,
            &[Figures::new(73, 73, 73), Figures::new(137, 137, 137)]
        ),
        Err(Refusal::LongCommonPeriod)
    );
    assert_eq!(rt; planned(Tick, &shares), Err(Refusal::TooManyChoices));
    assert_eq!(rt; planned(Tick, &shares[0..3]), Err(Refusal::Overload));
    assert_eq!(rt;
        planned(Tick, &[Figures::new(1, 2, 1), Figures::new(1, 3, 1)]),
        Err(Refusal::NoPlan)
    );
    assert_eq!(rt; planned(WorstStart, &whole), Err(Refusal::NoPlan));
    assert_eq!(rt; planned(Tick, &whole), Ok(()));
}

#[test]
fn a_change_removes_the_plan_unless_it_is_refused(rt: HostRuntime) -> Result<(), Fail> {
    let mut book = polisher()?;
    book.plan()?;
    assert_eq!(rt;
        book.enter(3, Figures::new(1, 12, 12)),
        Err(Refusal::StandingId)
    );
    assert_eq!(rt;
        book.amend(4, Figures::new(1, 12, 12)),
        Err(Refusal::UnknownId)
    );
    assert_eq!(rt; book.strike(4), Err(Refusal::UnknownId));
    assert!(rt; book.is_planned());
    book.amend(3, Figures::new(1, 12, 12))?;
    assert!(rt; !book.is_planned());
    book.plan()?;
    book.enter(4, Figures::new(1, 24, 24))?;
    assert!(rt; !book.is_planned());
    book.plan()?;
    book.plan()?;
    assert!(rt; book.is_planned());
    book.strike(4)?;
    assert!(rt; !book.is_planned());
    Ok(())
}

#[test]
fn questions_ask_for_the_id_and_then_for_a_plan(rt: HostRuntime) -> Result<(), Fail> {
    let mut book = polisher()?;
    assert_eq!(rt;
        (book.start(0), book.start(4), book.start(3)),
        (
            Err(Refusal::ZeroId),
            Err(Refusal::UnknownId),
            Err(Refusal::NoStandingPlan),
        )
    );
    assert_eq!(rt;
        (book.level(0), book.level(4), book.level(3)),
        (
            Err(Refusal::ZeroId),
            Err(Refusal::UnknownId),
            Err(Refusal::NoStandingPlan),
        )
    );
    assert_eq!(rt;
        (book.response(0), book.response(4), book.response(3)),
        (
            Err(Refusal::ZeroId),
            Err(Refusal::UnknownId),
            Err(Refusal::NoStandingPlan),
        )
    );
    assert_eq!(rt;
        (book.reckoned(0), book.reckoned(4), book.reckoned(3)),
        (
            Err(Refusal::ZeroId),
            Err(Refusal::UnknownId),
            Err(Refusal::NoStandingPlan),
        )
    );
    book.plan()?;
    assert_eq!(rt;
        (book.start(0), book.level(4)),
        (Err(Refusal::ZeroId), Err(Refusal::UnknownId))
    );
    assert_eq!(rt; (book.start(3), book.level(3)), (Ok(10), Ok(3)));
    assert_eq!(rt;
        (book.response(1), book.response(2), book.response(3)),
        (Ok(3), Ok(12), Ok(12))
    );
    assert_eq!(rt; book.reckoned(3), Ok(Some(12)));
    Ok(())
}

#[test]
fn a_sheet_needs_a_plan_and_then_room(rt: HostRuntime) -> Result<(), Fail> {
    let mut book = polisher()?;
    let mut out = [255; 35];
    assert_eq!(rt; book.store(&mut []), Err(Refusal::NoStandingPlan));
    book.plan()?;
    assert_eq!(rt; book.store(&mut out[0..33]), Err(Refusal::ListTooShort));
    assert_eq!(rt; out, [255; 35]);
    assert_eq!(rt; book.store(&mut out), Ok(34));
    assert_eq!(rt; (out[3], out[32], out[33], out[34]), (34, 10, 3, 255));
    Ok(())
}

#[test]
fn a_chart_needs_a_plan_then_a_window_and_then_room(rt: HostRuntime) -> Result<(), Fail> {
    let blank = Bar {
        first: 9,
        length: 9,
        id: 9,
    };
    let mut slots = [blank];
    let mut book = polisher()?;
    let mut list = List::new(&mut slots);
    assert_eq!(rt; book.chart(2..1, &mut list), Err(Refusal::NoStandingPlan));
    book.plan()?;
    assert_eq!(rt; book.chart(2..1, &mut list), Err(Refusal::WrongWindow));
    assert_eq!(rt; book.chart(0..59, &mut list), Err(Refusal::WrongWindow));
    assert_eq!(rt; book.chart(0..58, &mut list), Err(Refusal::ListTooShort));
    assert_eq!(rt; list.len(), 0);
    assert_eq!(rt; book.chart(23..24, &mut list), Ok(()));
    assert_eq!(rt;
        list.entries(),
        [Bar {
            first: 23,
            length: 1,
            id: 0,
        }]
        .as_slice()
    );
    Ok(())
}
