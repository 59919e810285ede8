// A sheet, and the processor that runs it.
ghost use Rattle.std.proofs.Props.{props};
ghost use Rattle.runner.specs.Running.{Stands};
ghost use Rattle.sheets.specs.Sheets.{rows_of};
ghost use Rattle.charts.specs.Plans.{demands_of, from_zero};

use runner::Processor;
use sheets::Sheet;

mod calls;

// The processor has the tasks of the sheet on their levels, and stands at a tick of their timeline.
#[derive(Clone, Copy)]
pub struct Running<'s> {
    sheet: &'s Sheet,
    processor: Processor,
    ghost stands: { Stands (from_zero (demands_of (rows_of sheet.now))) processor } by { Prim.hlevel props },
}

// Ticks in which one id is shown.
#[derive(Clone, Copy)]
pub struct Run {
    pub id: u8,
    pub length: u32,
}
