// A plan: a start and a level for each task.
use periods::MOST_TASKS;
use short_list::ShortList;

mod calls;

// What a plan gives a task.
#[derive(Clone, Copy, PartialEq, Eq, Debug, Default)]
pub struct Assignment {
    pub start: u16,
    pub level: u8,
}

// By place.
#[derive(Clone, Copy)]
pub struct Plan {
    given: ShortList<Assignment, MOST_TASKS>,
}
