// A task of a plan that stands.
ghost use Rattle.std.specs.Prelude.{◌<◌, length};
ghost use Rattle.sheets.specs.Sheets.{rows_of};

use crate::standing::StandingPlan;

mod calls;

// The task at a place, counted from 0.
#[derive(Clone, Copy)]
pub struct PlannedTask<'p> {
    plan: &'p StandingPlan,
    place: usize,
    ghost held: { place < length (rows_of plan.now.sheet) },
}
