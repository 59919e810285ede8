// The search over the starts.
ghost use Rattle.std.specs.Prelude.{Ok};
ghost use Rattle.periods.specs.Listed.{start_of};
ghost use Rattle.periods.specs.Lists.{ListsChoices};
ghost use Rattle.tasks.specs.Cases.{Formed};
ghost use Rattle.tasks.specs.Tables.{rows_of, figures_in, periods_held};
ghost use Rattle.planner.specs.Plans.{Answered, PlanIfAny, Searched, timed};

use crate::levels::order_for;
use crate::plan::Plan;
use judges::Judge;
use periods::{Choices, MOST_TASKS};
use refusals::Refusal;
use short_list::ShortList;
use tasks::{Case, Table, Timed};

// A plan of the table that passes the judge, if there is one.
pub fn search<J: Judge>(judge: &J, table: &Table) -> Result<Option<Plan>, Refusal>
    ensures { Searched (J.Judge.meaning judge.now) (figures_in table.now) result }
{
    Ok(search_among(judge, table, &table.choices()?))
}

// A plan of the table, or why there is none.
pub fn plan_for<J: Judge>(judge: &J, table: &Table) -> Result<Plan, Refusal>
    ensures { Answered (J.Judge.meaning judge.now) (figures_in table.now) result }
{
    let choices = table.choices()?;
    if table.load().unwrap() > table.common_period().unwrap() {
        return Err(Refusal::Overload);
    }
    search_among(judge, table, &choices).ok_or(Refusal::NoPlan)
}

// A plan of the table with one of its listed choices, if there is one. The choices are tried by rank, which is a number:
// any other starts are related to one of them, and the judge rules on both alike.
fn search_among<J: Judge>(judge: &J, table: &Table, choices: &Choices) -> Option<Plan>
    requires { ListsChoices (periods_held table.now) (Ok choices.now) }
    ensures { PlanIfAny (J.Judge.meaning judge.now) (figures_in table.now) result }
{
    for rank in 0..choices.count() {
        let starts = choices.starts(rank).unwrap();
        let case = case_of(table, &starts).unwrap();
        if let Some(order) = order_for(judge, &case) {
            return Some(Plan::new(starts, &order));
        }
    }
    None
}

// The tasks of the table with these starts.
fn case_of(table: &Table, starts: &[u16; MOST_TASKS]) -> Result<Case, Refusal>
    ensures { Formed (timed (rows_of table.now) (start_of starts.now)) result }
{
    let timed = table.rows().iter().zip(starts).map(|(row, start)| Timed {
        figures: row.figures,
        start: *start,
    });
    Case::form(&ShortList::<Timed, MOST_TASKS>::from_iter(timed).unwrap())
}
