// The screen: the worst-start judge first, and the judge below it where that says no.
ghost use Rattle.judges.specs.Screen.{Screened};
ghost use Rattle.judges.specs.WorstStart.{InTimeAtWorst};
ghost use Rattle.judges.specs.ScreenLaws.{either_lawful};
ghost use Rattle.judges.specs.WorstStartLaws.{worst_start_lawful};

use crate::judge::Judge;
use crate::worst_start::WorstStart;
use tasks::Judged;

#[derive(Drop)]
pub struct Screen<J> {
    pub judge: J,
}

impl<J: Judge> Judge for Screen<J> {
    ghost meaning = { λ screen. Screened (J.Judge.meaning screen.judge) };

    ghost lawful = { λ judge. either_lawful InTimeAtWorst _ worst_start_lawful (J.Judge.lawful judge.judge) };

    fn rule(&self, judged: Judged) -> bool {
        WorstStart.rule(judged) || self.judge.rule(judged)
    }
}
