// The worst-start judge: as if the judged task and all those above it started at once.
ghost use Rattle.std.specs.Prelude.{◌≡◌, ◌<◌, ◌≤◌, length};
ghost use Rattle.judges.specs.WorstStart.{work_below, SettlesInTime, InTimeAtWorst};
ghost use Rattle.periods.specs.Multiples.{longest_period};
ghost use Rattle.tasks.specs.Places.{has};
ghost use Rattle.tasks.specs.Cases.{tasks_of};
ghost use Rattle.timeline.specs.Laws.{rounds_in};
ghost use Rattle.judges.specs.WorstStartLaws.{worst_start_lawful, worst_start_measured};

use crate::judge::{Judge, MeasuringJudge};
use tasks::{Judged, Timed};

// Ignores the starts.
#[derive(Clone, Copy)]
pub struct WorstStart;

impl Judge for WorstStart {
    ghost meaning = { λ _. InTimeAtWorst };

    ghost lawful = { λ judge. worst_start_lawful };

    fn rule(&self, judged: Judged) -> bool {
        self.response(judged).is_some()
    }
}

impl MeasuringJudge for WorstStart {
    ghost reckons = { λ _. SettlesInTime };

    ghost measured = { λ judge. worst_start_measured };

    // From the work of the judged task on, the ticks are raised to the work that they bring, until they bring no more.
    fn response(&self, judged: Judged) -> Option<u32> {
        let figures = judged.case.rows().get(judged.place)?.figures;
        let deadline = u32::from(figures.deadline);
        let mut ticks = u32::from(figures.work);
        while ticks <= deadline {
            let work = work_in(judged, ticks);
            if work == ticks {
                return Some(ticks);
            }
            ticks = work;
        }
        None
    }
}

// The work that so many ticks can bring of the judged task and those above it.
fn work_in(judged: Judged, ticks: u32) -> u32
    requires held { judged.place < length (tasks_of judged.case.now) }
    requires few { ticks ≤ longest_period }
    ensures { result ≡ work_below (tasks_of judged.entry.case.now) judged.entry.place (has judged.entry.above.now) ticks }
{
    let rows = judged.case.rows();
    let mut work = u32::from(rows[judged.place].figures.work);
    // A loop: in a chain of `filter`, `map` and `sum` it stayed open that each row that comes has a period to divide by.
    for (place, row) in rows.iter().enumerate() {
        if judged.is_above(place) {
            work += rounds(ticks, u32::from(row.figures.period)) * u32::from(row.figures.work);
        }
    }
    work
}

// How many requests so many ticks can bring.
fn rounds(ticks: u32, period: u32) -> u32
    requires { 0 < period }
    ensures { result ≡ rounds_in ticks period }
{
    ticks.div_ceil(period)
}
