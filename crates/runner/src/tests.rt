use crate::{LAST_TICK, NotTaken, Processor, Span, runs_at};
use std::test::Fail;
use tasks::{Figures, Task};

fn task(work: u16, period: u16) -> Result<Task, Fail> {
    Ok(Task::form(Figures::new(work, period, period))?)
}

#[test]
fn runs_the_highest_level_with_work(rt: HostRuntime) -> Result<(), Fail> {
    let mut processor = Processor::new();
    assert_eq!(rt; processor.add(task(3, 8)?, 0), Ok(()));
    assert_eq!(rt; processor.add(task(6, 12)?, 0), Ok(()));
    assert_eq!(rt; processor.add(task(1, 12)?, 10), Ok(()));
    assert_eq!(rt; runs_at(processor, 22), Some(Some(2)));
    assert_eq!(rt; runs_at(processor, 23), Some(None));
    let spans = [
        (Some(0), 0, 3),
        (Some(1), 3, 5),
        (Some(0), 8, 2),
        (Some(0), 10, 1),
        (Some(1), 11, 1),
        (Some(1), 12, 4),
        (Some(0), 16, 3),
        (Some(1), 19, 2),
        (Some(2), 21, 1),
        (Some(2), 22, 1),
        (None, 23, 1),
    ];
    for (runs, from, length) in spans {
        assert_eq!(rt; processor.advance(24), Some(Span { runs, from, length }));
    }
    assert_eq!(rt; processor.advance(24), None);
    assert_eq!(rt; runs_at(processor, 23), None);
    assert_eq!(rt; processor.next_request(2), Some(34));
    Ok(())
}

#[test]
fn stops_at_the_last_tick(rt: HostRuntime) -> Result<(), Fail> {
    let mut processor = Processor::new();
    assert_eq!(rt;
        processor.add(task(1, 2)?, LAST_TICK + 1),
        Err(NotTaken::LateStart)
    );
    assert!(rt; processor.advance(7).is_some());
    assert_eq!(rt; processor.add(task(1, 2)?, 8), Err(NotTaken::HasRun));
    assert!(rt; processor.advance(u32::MAX).is_some());
    assert_eq!(rt; processor.tick(), LAST_TICK);
    assert_eq!(rt; processor.advance(u32::MAX), None);
    Ok(())
}

#[test]
fn runs_up_to_a_tick(rt: HostRuntime) -> Result<(), Fail> {
    let mut processor = Processor::new();
    assert_eq!(rt; processor.add(task(3, 8)?, 0), Ok(()));
    processor.run_to(10);
    assert_eq!(rt; (processor.tick(), processor.left(0)), (10, 1));
    processor.run_to(9);
    assert_eq!(rt; processor.tick(), 10);
    processor.run_to(u32::MAX);
    assert_eq!(rt; processor.tick(), LAST_TICK);
    Ok(())
}
