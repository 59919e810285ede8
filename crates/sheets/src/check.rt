// The checks that the rows of a sheet have to pass.
ghost use Rattle.std.specs.Prelude.{◌≡◌, ◌==◌, List, [], Option};
ghost use Rattle.std.specs.Result.{result_err};
ghost use Rattle.std.specs.List.{list_any};
ghost use Rattle.short_list.specs.Items.{items_of};
ghost use Rattle.sheets.specs.Checks.{last_id, id_fault, figures_fault, start_fault, level_fault, Checks, first_wrong, entries_fault, rows_fault};

use crate::fault::{EntryFault, SheetFault, WrongEntry};
use crate::row::SheetRow;
use periods::MOST_TASKS;
use short_list::ShortList;
use tasks::{Task, periods_of};

// An id above those of the entries before it.
fn check_id(earlier: &[SheetRow], row: SheetRow) -> Result<(), EntryFault>
    ensures { result_err result ≡ id_fault earlier.now row }
{
    if row.id <= last_id(earlier) {
        return Err(EntryFault::UnsortedId);
    }
    Ok(())
}

fn check_figures(row: SheetRow) -> Result<(), EntryFault>
    ensures { result_err result ≡ figures_fault row }
{
    Task::form(row.figures)?;
    Ok(())
}

fn check_start(row: SheetRow) -> Result<(), EntryFault>
    ensures { result_err result ≡ start_fault row }
{
    if row.start >= row.figures.period {
        return Err(EntryFault::LateStart);
    }
    Ok(())
}

// A level from 1 to the number of entries, and none of those before it.
#[tactic(auto, using(crate::proofs::Entries::level_is_in))]
fn check_level(count: usize, earlier: &[SheetRow], row: SheetRow) -> Result<(), EntryFault>
    ensures { result_err result ≡ level_fault count earlier.now row }
{
    if row.level == 0 || usize::from(row.level) > count || is_taken(row.level, earlier) {
        return Err(EntryFault::WrongLevel);
    }
    Ok(())
}

// The first entry that fails a check, which is given the entries before it too.
fn check_each<F: Fn(&[SheetRow], SheetRow) -> Result<(), EntryFault>>(
    rows: &[SheetRow],
    check: F,
) -> Result<(), WrongEntry>
    requires { F.IsAlwaysCallable check }
    ensures { (fault : List SheetRow → SheetRow → Option EntryFault) → Checks F.Fn check fault → result_err result ≡ first_wrong fault [] rows.now }
{
    for (i, row) in rows.iter().enumerate() {
        check(&rows[..i], *row).map_err(|fault| WrongEntry {
            place: i + 1,
            fault,
        })?;
    }
    Ok(())
}

// The id of the last entry. It is 0 before the first, which also refuses the id 0.
fn last_id(rows: &[SheetRow]) -> u8
    ensures { result ≡ last_id rows.now }
{
    rows.last().map_or(0, |row| row.id)
}

fn is_taken(level: u8, rows: &[SheetRow]) -> bool
    ensures { result ≡ list_any (λ row. level == row.level) rows.now }
{
    rows.iter().any(|row| level == row.level)
}

// Why these rows make no sheet, if they do not. There are never too many: the list holds as many as a sheet.
pub(crate) fn check_rows(rows: &ShortList<SheetRow, MOST_TASKS>) -> Result<(), SheetFault>
    ensures { result_err result ≡ rows_fault (items_of rows.now) }
{
    let rows = rows.as_slice();
    if rows.is_empty() {
        return Err(SheetFault::WrongCount);
    }
    check_entries(rows)?;
    periods_of(rows)
        .unwrap()
        .common_period()
        .map_err(|_| SheetFault::LongCommonPeriod)?;
    Ok(())
}

// Each check covers all entries before the next begins.
fn check_entries(rows: &[SheetRow]) -> Result<(), WrongEntry>
    ensures { result_err result ≡ entries_fault rows.now }
{
    check_each(rows, check_id)?;
    check_each(rows, |_, row| check_figures(row))?;
    check_each(rows, |_, row| check_start(row))?;
    check_each(rows, |earlier, row| check_level(rows.len(), earlier, row))
}
