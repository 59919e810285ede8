ghost use Rattle.runner.specs.Running.{ToldAt};

use crate::LAST_TICK;
use crate::processor::Processor;

// Who runs in a tick: a level, or none. No answer for a tick that is over, or that the processor does not reach. Two
// options, since these are two questions: whether there is an answer, and whether anybody runs.
pub fn runs_at(mut processor: Processor, tick: u32) -> Option<Option<usize>>
    ensures { ToldAt processor tick result }
{
    if tick < processor.tick() || tick >= LAST_TICK {
        return None;
    }
    processor.run_to(tick);
    processor.advance(tick + 1).map(|span| span.runs)
}
