// Rows of tables and cases: figures of a task with what belongs to them.
ghost use Rattle.std.specs.Prelude.{◌≡◌, ◌≤◌, map, length, Some, None, IfOk, IsOk, MatchResult};
ghost use Rattle.std.specs.List.{AllByRecursion};
ghost use Rattle.std.specs.Result.{result_err};
ghost use Rattle.periods.specs.Multiples.{most_tasks};
ghost use Rattle.periods.specs.Rows.{periods_of as held_periods, first_not_taken};
ghost use Rattle.tasks.specs.Figures.{Fair, first_fault};
ghost use Rattle.tasks.specs.Loads.{periods_in};
ghost use Rattle.tasks.specs.Rows.{row_of};
ghost use Rattle.tasks.specs.declared.figures.Figures.{Figures};

use crate::figures::Figures;
use crate::task::Task;
use periods::{NotTaken, Periods};
use refusals::TaskFault;

// A row of a table: the task with this id.
#[derive(Clone, Copy, PartialEq, Eq, Debug, Default)]
pub struct Row {
    pub id: u8,
    pub figures: Figures,
}

impl Row {
    // A row of fair figures, or the first fault of theirs.
    pub(crate) fn form(id: u8, figures: Figures) -> Result<Row, TaskFault>
        ensures cases { MatchResult result (λ row. (first_fault figures ≡ None) × (row ≡ row_of id figures)) (λ fault. first_fault figures ≡ Some fault) }
        ensures fair { IfOk result (λ row. Fair row.figures) }
    {
        let task = Task::form(figures)?;
        Ok(Row {
            id,
            figures: task.figures(),
        })
    }
}

// A row of a case: a task whose first request falls at its start.
#[derive(Clone, Copy, PartialEq, Eq, Debug, Default)]
pub struct Timed {
    pub figures: Figures,
    pub start: u16,
}

// Rows of any kind: figures of a task, with what belongs to them.
pub trait HasFigures {
    ghost has: { Self → Figures };

    fn figures(&self) -> Figures
        ensures { result ≡ has self.now };
}

impl HasFigures for Row {
    ghost has = { λ row. row.figures };

    fn figures(&self) -> Figures {
        self.figures
    }
}

impl HasFigures for Timed {
    ghost has = { λ row. row.figures };

    fn figures(&self) -> Figures {
        self.figures
    }
}

// The periods of rows, in their places, unless one of them is not taken; of fair rows all are, if they are no more than
// tasks on a controller.
pub fn periods_of<R: HasFigures>(rows: &[R]) -> Result<Periods, NotTaken>
    ensures why { result_err result ≡ first_not_taken (periods_in (map R.HasFigures.has rows.now)) }
    ensures ok { IfOk result (λ periods. held_periods periods ≡ periods_in (map R.HasFigures.has rows.now)) }
    ensures fair { length rows.now ≤ most_tasks → AllByRecursion (λ row. Fair (R.HasFigures.has row)) rows.now → IsOk result }
{
    let mut periods = Periods::new();
    for row in rows {
        periods.add(row.figures().period)?;
    }
    Ok(periods)
}
