// The chart of a sheet and its late requests, told in a caller's list.
#![tactic(auto)]

ghost use Rattle.sheets.specs.Bytes.{entries_in};
ghost use Rattle.sheets.specs.Sheets.{rows_of};
ghost use Rattle.charts.specs.Charts.{Charted, OneChart, shown};
ghost use Rattle.charts.specs.Inspections.{Inspected};
ghost use Rattle.charts.specs.LateRequests.{InOrder, IsLate, OneOrder};
ghost use Rattle.charts.specs.Listing.{Lists};

mod bars;
mod deadlines;
mod inspection;
mod plan;
mod running;
#[cfg(test)]
mod tests;
mod walk;

use crate::bars::Bars;
use crate::deadlines::Deadlines;
use crate::plan::horizon;
use crate::walk::fill;
use entries::{Bar, LateRequest, List};
pub use inspection::InspectRefusal;
use refusals::Refusal;
use sheets::Sheet;
use std::ops::Range;

// Lists who runs in the ticks of a window: a bar for each longest run of one id, or of idle.
pub fn chart(sheet: &Sheet, window: Range<u32>, list: &mut List<Bar>) -> Result<(), Refusal>
    ensures charted { Charted (rows_of sheet.now) window.start window.end list.old result list.new }
    ensures one { OneChart (shown (rows_of sheet.now)) window.start window.end }
{
    if window.start > window.end || window.end > horizon(sheet) {
        return Err(Refusal::WrongWindow);
    }
    fill(Bars::over(sheet, window), list)
}

// Lists the late requests with a deadline up to and including the horizon, by deadline and then by id.
pub fn late_requests(sheet: &Sheet, list: &mut List<LateRequest>) -> Result<(), Refusal>
    ensures listed { Lists (InOrder (IsLate (rows_of sheet.now))) list.old result list.new }
    ensures one { OneOrder (IsLate (rows_of sheet.now)) }
{
    fill(Deadlines::of(sheet), list)
}

// Lists the late requests of the sheet that these bytes hold. Nothing else is asked for: no book, no judge.
pub fn inspect(bytes: &[u8], list: &mut List<LateRequest>) -> Result<(), InspectRefusal>
    ensures inspected { Inspected bytes.now list.old result list.new }
    ensures one { OneOrder (IsLate (entries_in bytes.now)) }
{
    let sheet = Sheet::read(bytes)?;
    late_requests(&sheet, list)?;
    Ok(())
}
