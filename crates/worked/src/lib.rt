// A plan and tables worked out, and what the definitions say of them.
#![tactic(auto)]

ghost use Rattle.std.specs.Prelude.{◌≡◌};
ghost use Rattle.sheets.specs.Sheets.{rows_of};
ghost use Rattle.worked.specs.Plan.{planned_rows};
ghost use Rattle.worked.specs.Tables.{WorkedTables};

#[cfg(test)]
mod tests;

use judges::Judge;
use sheets::{Sheet, SheetRow};
use tasks::Figures;

// The sheet of the worked plan, with all that is worked out; J is any kind of judge, since one table is refused whatever
// the judge.
pub fn worked_plan<J: Judge>() -> Sheet
    ensures rows { rows_of result ≡ planned_rows }
    ensures tables { WorkedTables J.Judge.meaning }
{
    Sheet::form(&[
        SheetRow::new(1, Figures::new(3, 8, 8), 0, 1),
        SheetRow::new(2, Figures::new(6, 12, 12), 0, 2),
        SheetRow::new(3, Figures::new(1, 12, 12), 10, 3),
    ])
    .unwrap()
}
