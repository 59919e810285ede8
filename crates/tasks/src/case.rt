// A case: tasks with their starts.
ghost use Rattle.std.specs.Prelude.{◌≡◌, ◌≤◌, true, length};
ghost use Rattle.periods.specs.Multiples.{longest_common_period, common_period};
ghost use Rattle.short_list.specs.Items.{items_of};
ghost use Rattle.tasks.specs.Loads.{periods_in};
ghost use Rattle.tasks.specs.Timed.{are_timely, figures_given};

use crate::rows::Timed;
use periods::MOST_TASKS;
use short_list::ShortList;

mod calls;

// One to eight tasks with fair figures, each with a start below its period, and a common period that is not too long.
#[derive(Clone, Copy)]
pub struct Case {
    rows: ShortList<Timed, MOST_TASKS>,
    ghost some: { 1 ≤ length (items_of rows) },
    ghost timely: { are_timely (items_of rows) ≡ true },
    ghost short: { common_period (periods_in (figures_given (items_of rows))) ≤ longest_common_period },
}
