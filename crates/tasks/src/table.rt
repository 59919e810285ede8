// The table of a controller's tasks.
ghost use Rattle.std.specs.Prelude.{◌≡◌, true};
ghost use Rattle.short_list.specs.Items.{items_of};
ghost use Rattle.tasks.specs.Rows.{tidy as is_tidy};

use crate::rows::Row;
use periods::MOST_TASKS;
use short_list::ShortList;

mod calls;

// At most eight tasks, with fair figures, in rising order of their ids.
#[derive(Clone, Copy)]
pub struct Table {
    rows: ShortList<Row, MOST_TASKS>,
    ghost tidy: { is_tidy 1 (items_of rows) ≡ true },
}
