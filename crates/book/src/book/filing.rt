// The standing plan as a sheet, and as a chart.
ghost use Rattle.book.specs.Books.{plan_in};
ghost use Rattle.book.specs.Questions.{Stored, PlanCharted};

use crate::book::Book;
use entries::{Bar, List};
use refusals::Refusal;
use std::ops::Range;

impl<J> Book<J> {
    // Fills the front of a buffer with the sheet of the standing plan, and tells how many bytes it has.
    pub fn store(&self, out: &mut [u8]) -> Result<usize, Refusal>
        ensures { Stored (plan_in self.now) out.old result out.new }
    {
        self.standing()?.sheet().write(out)
    }

    // Lists who runs in the ticks of a window in the standing plan.
    pub fn chart(&self, window: Range<u32>, list: &mut List<Bar>) -> Result<(), Refusal>
        ensures { PlanCharted (plan_in self.now) window.start window.end list.old result list.new }
    {
        charts::chart(self.standing()?.sheet(), window, list)
    }
}
