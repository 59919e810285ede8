// A sheet.
ghost use Rattle.std.specs.Prelude.{◌≡◌, false, is_some};
ghost use Rattle.short_list.specs.Items.{items_of};
ghost use Rattle.sheets.specs.Checks.{rows_fault};

use crate::row::SheetRow;
use periods::MOST_TASKS;
use short_list::ShortList;

mod calls;
mod read;
mod sizes;
mod write;

pub use sizes::LONGEST_SHEET;

// Tasks with their starts and levels, in rising order of their ids, that pass every check.
#[derive(Clone, Copy)]
pub struct Sheet {
    rows: ShortList<SheetRow, MOST_TASKS>,
    ghost sound: { is_some (rows_fault (items_of rows)) ≡ false },
}
