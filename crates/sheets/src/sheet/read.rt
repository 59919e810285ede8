// A sheet from its bytes.
ghost use Rattle.std.specs.Prelude.{◌≡◌, ◌*◌, ◌/◌, ◌≤◌, length, Some, MatchResult};
ghost use Rattle.short_list.specs.Items.{items_of};
ghost use Rattle.periods.specs.Multiples.{most_tasks};
ghost use Rattle.sheets.specs.Bytes.{rows_in, entries_in, header_fault, sheet_fault, RightHeader};
ghost use Rattle.sheets.specs.Sheets.{Gives, ReadsEncoded, ShowsEarly};

use crate::fault::SheetFault;
use crate::row::SheetRow;
use crate::sheet::Sheet;
use crate::sheet::sizes::{HEADER, TASK_ENTRY, sheet_length};
use periods::MOST_TASKS;
use short_list::ShortList;
use tasks::Figures;

impl Sheet {
    // The sheet that these bytes hold, or the first fault of theirs.
    pub fn read(bytes: &[u8]) -> Result<Sheet, SheetFault>
        ensures value { Gives (sheet_fault bytes.now) (entries_in bytes.now) result }
        ensures format { ReadsEncoded bytes.now result }
        ensures early { ShowsEarly bytes.now }
    {
        let count = read_header(bytes)?;
        let (tasks, plans) = bytes[HEADER..].split_at(TASK_ENTRY * count);
        Sheet::checked(read_rows(tasks, plans))
    }
}

// How many tasks the header tells, if the bytes are as many as these need.
fn read_header(bytes: &[u8]) -> Result<usize, SheetFault>
    ensures { MatchResult result (RightHeader bytes.now) (λ fault. header_fault bytes.now ≡ Some fault) }
{
    let [n1, n0, l1, l0, ..] = bytes else {
        return Err(SheetFault::NoHeader);
    };
    let count = usize::from(u16::from_be_bytes([*n1, *n0]));
    if count == 0 || count > MOST_TASKS {
        return Err(SheetFault::WrongCount);
    }
    let length = usize::from(u16::from_be_bytes([*l1, *l0]));
    if length != sheet_length(count) || length != bytes.len() {
        return Err(SheetFault::WrongLength);
    }
    Ok(count)
}

// The rows of as many entries of each kind.
fn read_rows(mut tasks: &[u8], mut plans: &[u8]) -> ShortList<SheetRow, MOST_TASKS>
    requires paired { length plans.now / 3 ≡ length tasks.now / 7 }
    requires few { length tasks.now / 7 ≤ most_tasks }
    ensures { items_of result ≡ rows_in (length tasks.now / 7) tasks.now plans.now }
{
    let mut rows = ShortList::new();
    // The customer fixed this form: each entry is matched as named bytes and the rest of the slice.
    while let [id, w1, w0, p1, p0, d1, d0, more_tasks @ ..] = tasks
        && let [s1, s0, level, more_plans @ ..] = plans
    {
        rows.push(SheetRow {
            id: *id,
            figures: Figures {
                work: u16::from_be_bytes([*w1, *w0]),
                period: u16::from_be_bytes([*p1, *p0]),
                deadline: u16::from_be_bytes([*d1, *d0]),
            },
            start: u16::from_be_bytes([*s1, *s0]),
            level: *level,
        })
        .unwrap();
        tasks = more_tasks;
        plans = more_plans;
    }
    rows
}
