// A sheet as bytes.
ghost use Rattle.std.specs.Prelude.{◌≡◌, ℕ, ◌*◌, ◌≤◌, List, ◌++◌, length, nat_lt};
ghost use Rattle.std.specs.List.{flat_map};
ghost use Rattle.refusals.specs.Answers.{answer, refuse_if};
ghost use Rattle.refusals.specs.declared.Refusal.TheVariants.{ListTooShort};
ghost use Rattle.periods.specs.Multiples.{most_tasks};
ghost use Rattle.sheets.specs.Bytes.{two_bytes, sheet_length, task_entry, plan_entry};
ghost use Rattle.sheets.specs.Sheets.{rows_of, ReadsBack, overwritten};

use crate::row::SheetRow;
use crate::sheet::Sheet;
use crate::sheet::sizes::{HEADER, PLAN_ENTRY, TASK_ENTRY, sheet_length};
use refusals::Refusal;

impl Sheet {
    // Fills the front of a buffer with the bytes of the sheet, and tells how many they are.
    pub fn write(&self, out: &mut [u8]) -> Result<usize, Refusal>
        ensures value { result ≡ answer (refuse_if (nat_lt (length out.old) (sheet_length (length (rows_of self.now)))) ListTooShort) (sheet_length (length (rows_of self.now))) }
        ensures after { out.new ≡ overwritten (rows_of self.now) out.old }
        ensures back { ReadsBack (rows_of self.now) }
    {
        let rows = self.rows();
        let plans = HEADER + TASK_ENTRY * rows.len();
        let length = sheet_length(rows.len());
        if out.len() < length {
            return Err(Refusal::ListTooShort);
        }
        out[0..HEADER].copy_from_slice(&header(rows.len()));
        write_entries::<TASK_ENTRY, TaskEntry>(rows, &mut out[HEADER..plans]);
        write_entries::<PLAN_ENTRY, PlanEntry>(rows, &mut out[plans..length]);
        Ok(length)
    }
}

fn header(count: usize) -> [u8; HEADER]
    requires { count ≤ most_tasks }
    ensures { result ≡ two_bytes count ++ two_bytes (sheet_length count) }
{
    let [n1, n0] = (count as u16).to_be_bytes();
    let [l1, l0] = (sheet_length(count) as u16).to_be_bytes();
    [n1, n0, l1, l0]
}

// A kind of entry: N bytes of each row.
pub(super) trait Entry<const N: usize> {
    ghost use Rattle.sheets.specs.declared.row.SheetRow.{SheetRow};

    ghost bytes: { SheetRow → List ℕ };

    fn of(row: &SheetRow) -> [u8; N]
        ensures { result ≡ bytes row.now };
}

pub(super) struct TaskEntry;

impl Entry<TASK_ENTRY> for TaskEntry {
    ghost bytes = { task_entry };

    fn of(row: &SheetRow) -> [u8; TASK_ENTRY] {
        let [w1, w0] = row.figures.work.to_be_bytes();
        let [p1, p0] = row.figures.period.to_be_bytes();
        let [d1, d0] = row.figures.deadline.to_be_bytes();
        [row.id, w1, w0, p1, p0, d1, d0]
    }
}

pub(super) struct PlanEntry;

impl Entry<PLAN_ENTRY> for PlanEntry {
    ghost bytes = { plan_entry };

    fn of(row: &SheetRow) -> [u8; PLAN_ENTRY] {
        let [s1, s0] = row.start.to_be_bytes();
        [s1, s0, row.level]
    }
}

// The entries of all rows, one after the other.
fn write_entries<const N: usize, E: Entry<N>>(rows: &[SheetRow], out: &mut [u8])
    requires { length out.old ≡ N * length rows.now }
    ensures { out.new ≡ flat_map E.Entry.bytes rows.now }
{
    // Ranges by the row's index: std says nothing of a slice that was written chunk by chunk.
    for (i, row) in rows.iter().enumerate() {
        out[N * i..N * (i + 1)].copy_from_slice(&E::of(row));
    }
}
