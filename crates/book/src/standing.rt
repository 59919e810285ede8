// A plan that stands.
ghost use Rattle.book.specs.Punctual.{NoneLate};
ghost use Rattle.sheets.specs.Sheets.{rows_of};

use sheets::Sheet;

mod calls;
mod task;

pub(crate) use task::PlannedTask;

// A sheet on whose endless timeline no request is late.
#[derive(Clone, Copy)]
pub struct StandingPlan {
    sheet: Sheet,
    ghost in_time: { NoneLate (rows_of sheet) },
}
