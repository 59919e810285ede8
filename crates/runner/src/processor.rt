ghost use Rattle.std.specs.Prelude.{◌≤◌};
ghost use Rattle.std.specs.List.{All};
ghost use Rattle.short_list.specs.Items.{items_of};
ghost use Rattle.runner.specs.Levels.{last_tick, Kept};

use crate::level::Level;
use periods::MOST_TASKS;
use short_list::ShortList;

mod calls;
mod questions;

// A processor at a tick, with a task on each of its levels that are in use, the highest priority first.
#[derive(Clone, Copy)]
pub struct Processor {
    tick: u32,
    levels: ShortList<Level, MOST_TASKS>,
    ghost bounded: { tick ≤ last_tick },
    ghost kept: { All (Kept tick) (items_of levels) },
}
