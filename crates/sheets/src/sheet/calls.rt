// Forming a sheet, and its rows.
ghost use Rattle.std.specs.Prelude.{◌≡◌, None};
ghost use Rattle.short_list.specs.Items.{items_of};
ghost use Rattle.periods.specs.Multiples.{common_period};
ghost use Rattle.tasks.specs.Loads.{periods_in};
ghost use Rattle.tasks.specs.Timed.{figures_given};
ghost use Rattle.sheets.specs.Checks.{Sound, timed_in, rows_fault};
ghost use Rattle.sheets.specs.Sheets.{rows_of, Gives};

use crate::check::check_rows;
use crate::fault::SheetFault;
use crate::row::SheetRow;
use crate::sheet::Sheet;
use periods::MOST_TASKS;
use short_list::ShortList;
use tasks::periods_of;

impl Sheet {
    // A sheet of these rows, or the first fault of theirs.
    pub fn form(rows: &[SheetRow]) -> Result<Sheet, SheetFault>
        ensures value { Gives (rows_fault rows.now) rows.now result }
        ensures sound { (rows_fault rows.now ≡ None → Sound rows.now) × (Sound rows.now → rows_fault rows.now ≡ None) }
    {
        Sheet::checked(ShortList::try_from(rows)?)
    }

    // The same of rows that are not too many.
    pub(super) fn checked(rows: ShortList<SheetRow, MOST_TASKS>) -> Result<Sheet, SheetFault>
        ensures { Gives (rows_fault (items_of rows)) (items_of rows) result }
    {
        check_rows(&rows)?;
        Ok(Sheet { rows })
    }

    // The tasks with their starts and levels, in rising order of their ids.
    pub fn rows(&self) -> &[SheetRow]
        ensures value { result.now ≡ rows_of self.now }
        ensures sound { Sound result.now }
    {
        self.rows.as_slice()
    }

    // The least common multiple of the tasks' periods.
    pub fn common_period(&self) -> u32
        ensures { result ≡ common_period (periods_in (figures_given (timed_in (rows_of self.now)))) }
    {
        periods_of(self.rows()).unwrap().common_period().unwrap()
    }
}
