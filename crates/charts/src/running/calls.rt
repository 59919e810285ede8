// Running the tasks of a sheet, and telling of them by their ids.
ghost use Rattle.std.specs.Prelude.{◌≡◌, ◌+◌, ◌≤◌, max, min};
ghost use Rattle.timeline.specs.Processor.{owing};
ghost use Rattle.runner.specs.Levels.{last_tick};
ghost use Rattle.sheets.specs.Sheets.{rows_of};
ghost use Rattle.charts.specs.Plans.{demands_of, row_on};
ghost use Rattle.charts.specs.Runs.{NextTicks, id_for};

use crate::running::{Run, Running};
use runner::Processor;
use sheets::{Sheet, SheetRow};
use tasks::Task;

impl<'s> Running<'s> {
    // The tasks of a sheet at tick 0. A loop of its own: the rows come by level, and none is missing. A loader of any tasks,
    // for `ordered` and `Members::processor` in lateness too, would leave each of the three to prove what its chain gives.
    pub fn of(sheet: &'s Sheet) -> Running<'s>
        ensures sheet { result.sheet.now ≡ sheet.now }
        ensures tick { result.processor.tick ≡ 0 }
    {
        let rows = sheet.rows();
        let mut processor = Processor::new();
        // An index here: the processor's level is the number itself.
        for level in 0..rows.len() {
            let row = row_on(rows, level).unwrap();
            let task = Task::form(row.figures).unwrap();
            processor.add(task, u32::from(row.start)).unwrap();
        }
        Running { sheet, processor }
    }

    pub fn rows(&self) -> &'s [SheetRow]
        ensures { result.now ≡ rows_of self.now.sheet.now }
    {
        self.sheet.rows()
    }

    // The tick up to which it has run.
    pub fn tick(&self) -> u32
        ensures { result ≡ self.now.processor.tick }
    {
        self.processor.tick()
    }

    // The units that the task of a row has left from before this tick.
    pub fn left(&self, row: SheetRow) -> u32
        requires { 1 ≤ row.level }
        ensures { result ≡ owing (demands_of (rows_of self.now.sheet.now)) self.now.processor.tick row.level }
    {
        self.processor.left(usize::from(row.level) - 1)
    }

    // Runs up to a tick, or to the last tick. Where it stands there or beyond, it stays.
    pub fn run_to(&mut self, until: u32)
        ensures sheet { self.new.sheet ≡ self.old.sheet }
        ensures tick { self.new.processor.tick ≡ max self.old.processor.tick (min until last_tick) }
    {
        self.processor.run_to(until);
    }

    // The next ticks of one id, up to a tick. None where it stands there or beyond, or at the last tick.
    pub fn advance(&mut self, until: u32) -> Option<Run>
        ensures { NextTicks self.old until result self.new }
    {
        let span = self.processor.advance(until)?;
        Some(Run {
            id: id_for(self.sheet.rows(), span.runs),
            length: span.length,
        })
    }
}

// The row on a level of the processor, which counts them from 0.
fn row_on(rows: &[SheetRow], level: usize) -> Option<SheetRow>
    ensures { result ≡ row_on (level + 1) rows.now }
{
    rows.iter()
        .find(|row| usize::from(row.level).checked_sub(1) == Some(level))
        .copied()
}

// The id of the row on the level that runs, and 0 where none does.
fn id_for(rows: &[SheetRow], runs: Option<usize>) -> u8
    ensures { result ≡ id_for rows.now runs }
{
    runs.and_then(|level| row_on(rows, level))
        .map_or(0, |row| row.id)
}
