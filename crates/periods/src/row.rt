ghost use Rattle.periods.specs.Multiples.{Proper};
ghost use Rattle.short_list.specs.Items.{items_of};

use crate::MOST_TASKS;
use short_list::ShortList;

mod calls;

// The periods of some tasks, in their places, each from 1 to LONGEST_PERIOD.
#[derive(Clone, Copy)]
pub struct Periods {
    at: ShortList<u16, MOST_TASKS>,
    ghost proper: { Proper (items_of at) },
}

// Why a period is not taken: it is 0 or too long, or there are as many as tasks on a controller.
#[derive(Clone, Copy, PartialEq, Eq, Debug)]
pub enum NotTaken {
    Improper,
    NoPlace,
}
