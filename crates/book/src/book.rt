// The book.
use crate::standing::StandingPlan;
use tasks::Table;

mod calls;
mod filing;
mod questions;

// What a book holds: tasks alone, or a plan with its tasks.
#[derive(Clone, Copy)]
pub(crate) enum Held {
    Tasks(Table),
    Plan(StandingPlan),
}

// The tasks of one controller and, where one stands, their plan, over one judge.
#[derive(Drop)]
pub struct Book<J> {
    judge: J,
    held: Held,
}
