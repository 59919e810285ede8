// Making a plan that stands, and its tasks as a table and as a case.
ghost use Rattle.std.specs.Prelude.{◌≡◌, length};
ghost use Rattle.tasks.specs.Cases.{timed_of};
ghost use Rattle.tasks.specs.Tables.{rows_of as table_rows};
ghost use Rattle.planner.specs.Plans.{count_of, start_at, level_at};
ghost use Rattle.sheets.specs.Checks.{Sound, tasks_in, timed_in};
ghost use Rattle.sheets.specs.Sheets.{rows_of};
ghost use Rattle.book.specs.Plans.{with_plan};
ghost use Rattle.book.specs.Punctual.{NoneLate};

use crate::standing::StandingPlan;
use periods::MOST_TASKS;
use planner::Plan;
use sheets::{Sheet, SheetRow};
use short_list::ShortList;
use tasks::{Case, Table, Timed};

impl StandingPlan {
    // The plan of a table, in which no request is late.
    pub(crate) fn of(table: &Table, plan: &Plan) -> StandingPlan
        requires sound { Sound (with_plan (table_rows table.now) (start_at plan.now) (level_at plan.now)) }
        requires in_time { NoneLate (with_plan (table_rows table.now) (start_at plan.now) (level_at plan.now)) }
        requires whole { count_of plan.now ≡ length (table_rows table.now) }
        ensures { rows_of result.sheet ≡ with_plan (table_rows table.now) (start_at plan.now) (level_at plan.now) }
    {
        let planned = table.rows().iter().zip(plan.assignments());
        let rows = planned.map(|(row, given)| SheetRow::new(
            row.id,
            row.figures,
            given.start,
            given.level,
        ));
        let rows = ShortList::<SheetRow, MOST_TASKS>::from_iter(rows).unwrap();
        StandingPlan {
            sheet: Sheet::form(&rows).unwrap(),
        }
    }

    pub(crate) fn sheet(&self) -> &Sheet
        ensures { result.now ≡ self.now.sheet }
    {
        &self.sheet
    }

    // The tasks without their starts and levels.
    pub(crate) fn table(&self) -> Table
        ensures { table_rows result ≡ tasks_in (rows_of self.now.sheet) }
    {
        let mut table = Table::new();
        for row in self.sheet.rows() {
            table.enter(row.id, row.figures).unwrap();
        }
        table
    }

    // The tasks with their starts.
    pub(crate) fn case(&self) -> Case
        ensures { timed_of result ≡ timed_in (rows_of self.now.sheet) }
    {
        let timed = self.sheet.rows().iter().map(|row| Timed {
            figures: row.figures,
            start: row.start,
        });
        Case::form(&ShortList::<Timed, MOST_TASKS>::from_iter(timed).unwrap()).unwrap()
    }
}
