// An order of tasks.
ghost use Rattle.std.specs.Prelude.{length};
ghost use Rattle.short_list.specs.Items.{items_of};
ghost use Rattle.planner.specs.Positions.{place_in, position_in, LeadsBack};

use periods::MOST_TASKS;
use short_list::ShortList;

mod calls;

// The places 0 to the last, each once, from the highest priority down.
#[derive(Clone, Copy)]
pub struct Order {
    places: ShortList<usize, MOST_TASKS>,
    ghost holds: { LeadsBack (length (items_of places)) (place_in (items_of places)) (position_in (items_of places)) },
    ghost has: { LeadsBack (length (items_of places)) (position_in (items_of places)) (place_in (items_of places)) },
}
