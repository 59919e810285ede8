// A task by itself.
ghost use Rattle.std.specs.Prelude.{◌≡◌, Some, None, MatchResult};
ghost use Rattle.tasks.specs.Figures.{Fair, first_fault};

use crate::figures::Figures;
use refusals::TaskFault;

// A task whose figures are fair, whoever formed it. Of bare figures only those clauses say it that show the figures of rows,
// or make a task of figures.
#[derive(Clone, Copy)]
pub struct Task {
    figures: Figures,
    ghost fair: { Fair figures },
}

// A task whose first request falls at its start. Beside `Timed`, which holds figures as a caller gives them, fair or not.
#[derive(Clone, Copy)]
pub struct TimedTask {
    pub task: Task,
    pub start: u16,
}

impl Task {
    // A task of these figures, or the first fault of theirs.
    pub fn form(figures: Figures) -> Result<Task, TaskFault>
        ensures cases { MatchResult result (λ task. (first_fault figures ≡ None) × (task.figures ≡ figures)) (λ fault. first_fault figures ≡ Some fault) }
        ensures fair { (first_fault figures ≡ None → Fair figures) × (Fair figures → first_fault figures ≡ None) }
    {
        // A match: a fault is what is looked for, and an option of it no result yet.
        match figures.first_fault() {
            Some(fault) => Err(fault),
            None => Ok(Task { figures }),
        }
    }

    // A task of figures that are known to be fair.
    pub(crate) fn of(figures: Figures) -> Task
        requires { Fair figures }
        ensures { result.figures ≡ figures }
    {
        Task { figures }
    }

    pub fn figures(&self) -> Figures
        ensures value { result ≡ self.now.figures }
        ensures fair { Fair result }
    {
        self.figures
    }
}
