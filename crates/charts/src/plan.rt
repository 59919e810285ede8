// How far a sheet is told of.
ghost use Rattle.std.specs.Prelude.{◌≡◌, ◌+◌, ◌*◌, ◌≤◌};
ghost use Rattle.periods.specs.Multiples.{longest_period, longest_common_period};
ghost use Rattle.sheets.specs.Sheets.{rows_of};
ghost use Rattle.charts.specs.Plans.{horizon as horizon_of};

use sheets::Sheet;

// The last tick that is told of: two common periods after the latest start. Lateness looks as far, after the members' latest
// start: one sum of two numbers, each reckoned from what its own crate holds.
pub fn horizon(sheet: &Sheet) -> u32
    ensures value { result ≡ horizon_of (rows_of sheet.now) }
    ensures near { result ≤ longest_period + 2 * longest_common_period }
{
    let starts = sheet.rows().iter().map(|row| row.start);
    u32::from(starts.max().unwrap_or(0)) + 2 * sheet.common_period()
}
