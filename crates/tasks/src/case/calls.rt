// Forming a case, and its rows.
ghost use Rattle.std.specs.Prelude.{◌≡◌, None};
ghost use Rattle.std.specs.List.{list_any};
ghost use Rattle.tasks.specs.Cases.{timed_of, TaskAt, Formed};
ghost use Rattle.tasks.specs.Figures.{breaks};
ghost use Rattle.tasks.specs.Timed.{Sound, first_fault_in, case_refusal};

use crate::case::Case;
use crate::figures::FAULTS;
use crate::rows::{Timed, periods_of};
use crate::task::{Task, TimedTask};
use refusals::{Refusal, TaskFault};
use short_list::ShortList;

impl Case {
    // A case of these tasks. A fault counts wherever it stands, and the smaller number is said first.
    pub fn form(rows: &[Timed]) -> Result<Case, Refusal>
        ensures value { Formed rows.now result }
        ensures sound { (case_refusal rows.now ≡ None → Sound rows.now) × (Sound rows.now → case_refusal rows.now ≡ None) }
    {
        // A fault is what is looked for, and an option of it no result yet.
        if let Some(fault) = first_fault(rows) {
            return Err(Refusal::Figures(fault));
        }
        let list = ShortList::try_from(rows).map_err(|_| Refusal::TooManyTasks)?;
        periods_of(rows).unwrap().common_period()?;
        if rows.iter().any(|row| row.start >= row.figures.period) {
            return Err(Refusal::LateStart);
        }
        Ok(Case { rows: list })
    }

    // The tasks of the case, in their places.
    pub fn rows(&self) -> &[Timed]
        ensures value { result.now ≡ timed_of self.now }
        ensures sound { Sound result.now }
    {
        self.rows.as_slice()
    }

    // The task at a place, counted from 0, and its start.
    pub fn task(&self, place: usize) -> Option<TimedTask>
        ensures { TaskAt self.now place result }
    {
        let Timed { figures, start } = *self.rows.get(place)?;
        Some(TimedTask {
            task: Task::of(figures),
            start,
        })
    }
}

// The first fault that any of the tasks has. A chain as that of one task's figures, with another test.
fn first_fault(rows: &[Timed]) -> Option<TaskFault>
    ensures { result ≡ first_fault_in rows.now }
{
    FAULTS
        .iter()
        .find(|fault| any_breaks(rows, **fault))
        .copied()
}

fn any_breaks(rows: &[Timed], fault: TaskFault) -> bool
    ensures { result ≡ list_any (λ row. breaks row.figures fault) rows.now }
{
    rows.iter().any(|row| row.figures.breaks(fault))
}
