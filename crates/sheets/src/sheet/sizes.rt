// How many bytes a sheet, its header and its entries have.
ghost use Rattle.std.specs.Prelude.{◌≡◌, ◌≤◌};
ghost use Rattle.periods.specs.Multiples.{most_tasks};
ghost use Rattle.sheets.specs.Bytes.{sheet_length};

use periods::MOST_TASKS;

pub(super) const HEADER: usize = 4;

pub(super) const TASK_ENTRY: usize = 7;

pub(super) const PLAN_ENTRY: usize = 3;

// The bytes of the longest sheet.
pub const LONGEST_SHEET: usize = HEADER + (TASK_ENTRY + PLAN_ENTRY) * MOST_TASKS;

// The bytes of a sheet with this many tasks.
// A count that fits a sheet has no type of its own, since only three private functions ask for it.
pub(super) fn sheet_length(count: usize) -> usize
    requires { count ≤ most_tasks }
    ensures { result ≡ sheet_length count }
{
    HEADER + (TASK_ENTRY + PLAN_ENTRY) * count
}
