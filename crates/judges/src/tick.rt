// The tick judge: the endless timeline itself.
ghost use Rattle.judges.specs.Tick.{InTime, WorstInTime};
ghost use Rattle.judges.specs.TickLaws.{tick_lawful, tick_measured};

use crate::judge::{Judge, MeasuringJudge};
use crate::worst_start::WorstStart;
use lateness::worst_response;
use tasks::Judged;

#[derive(Clone, Copy)]
pub struct Tick;

impl Judge for Tick {
    ghost meaning = { λ _. InTime };

    ghost lawful = { λ judge. tick_lawful };

    // Where the worst-start judge says yes, no start can make a request late.
    fn rule(&self, judged: Judged) -> bool {
        WorstStart.rule(judged) || self.response(judged).is_some()
    }
}

impl MeasuringJudge for Tick {
    ghost reckons = { λ _. WorstInTime };

    ghost measured = { λ judge. tick_measured };

    fn response(&self, judged: Judged) -> Option<u32> {
        worst_response(judged)
    }
}
