// What every judge is.
ghost use Rattle.judges.specs.Meaning.{Meaning, Lawful, Rules, Reckoning, Measured, Tells, MeaningAt, ReckonedAt};

use tasks::Judged;

pub trait Judge {
    // The ruling, for any tasks with any whole starts.
    ghost meaning: { Self → Meaning };

    // Rules on the judged place of a case, below the places above it.
    fn rule(&self, judged: Judged) -> bool
        ensures { Rules result (MeaningAt (meaning self.now) judged.entry) };

    ghost lawful: { (judge : Self) → Lawful (meaning judge) };
}

// A judge that also reckons the response of the judged task.
pub trait MeasuringJudge: Judge {
    // The reckoned response, for any tasks with any whole starts.
    ghost reckons: { Self → Reckoning };

    // The reckoned response, which a no does not have.
    fn response(&self, judged: Judged) -> Option<u32>
        ensures { Tells result (MeaningAt (Self.Judge.meaning self.now) judged.entry) (ReckonedAt (reckons self.now) judged.entry) };

    ghost measured: { (judge : Self) → Measured (Self.Judge.meaning judge) (reckons judge) };
}
