// Making a margin, and ruling with it.
ghost use Rattle.std.specs.Prelude.{◌≡◌, ◌<◌, ◌≤◌, MatchResult};
ghost use Rattle.refusals.specs.declared.Refusal.TheVariants.{LargeMargin};
ghost use Rattle.periods.specs.Multiples.{longest_period};
ghost use Rattle.judges.specs.Margin.{largest_margin, stretch as stretched_work, StretchedCase, NoMargin, WithMargin, ReckonsWithMargin};
ghost use Rattle.judges.specs.MarginLaws.{margin_lawful, margin_measured};

use crate::judge::{Judge, MeasuringJudge};
use crate::margin::Margin;
use periods::MOST_TASKS;
use refusals::Refusal;
use short_list::ShortList;
use tasks::{Case, Judged, Timed};

const LARGEST_MARGIN: u16 = 100;

impl<J: Drop> Margin<J> {
    // A margin over a judge, of at most a hundred percent.
    pub fn new(percent: u16, judge: J) -> Result<Margin<J>, Refusal>
        ensures value { MatchResult result (λ margin. (percent ≤ largest_margin) × (margin.percent ≡ percent) × (margin.judge ≡ judge)) (λ refusal. (largest_margin < percent) × (refusal ≡ LargeMargin)) }
        ensures nothing { NoMargin }
    {
        if percent > LARGEST_MARGIN {
            return Err(Refusal::LargeMargin);
        }
        Ok(Margin { percent, judge })
    }
}

impl<J> Margin<J> {
    // The case with more work, unless some work then passes its deadline. A loop: whether a row is changed hangs on its place,
    // and a `map` would hold all of the loop's body.
    fn stretched_case(&self, judged: Judged) -> Option<Case>
        ensures { StretchedCase self.now.percent judged.entry result }
    {
        let rows = judged.case.rows();
        let mut changed = ShortList::<Timed, MOST_TASKS>::new();
        for (place, row) in rows.iter().enumerate() {
            let mut row = *row;
            if judged.is_member(place) {
                row.figures.work = self.stretch(row.figures.work);
            }
            changed.push(row).unwrap();
        }
        Case::form(&changed).ok()
    }

    // So many percent more, rounded up.
    fn stretch(&self, work: u16) -> u16
        requires { work ≤ longest_period }
        ensures { result ≡ stretched_work self.now.percent work }
    {
        (u32::from(work) * (100 + u32::from(self.percent))).div_ceil(100) as u16
    }
}

impl<J: Judge> Judge for Margin<J> {
    ghost meaning = { λ margin. WithMargin margin.percent (J.Judge.meaning margin.judge) };

    ghost lawful = { λ judge. margin_lawful judge.percent (J.Judge.meaning judge.judge) (J.Judge.lawful judge.judge) };

    fn rule(&self, judged: Judged) -> bool {
        self.stretched_case(judged).is_some_and(|changed| {
            self.judge.rule(changed.judged(judged.place, judged.above))
        })
    }
}

impl<J: MeasuringJudge> MeasuringJudge for Margin<J> {
    ghost reckons = { λ margin. ReckonsWithMargin margin.percent (J.MeasuringJudge.reckons margin.judge) };

    ghost measured = { λ judge.
        margin_measured judge.percent (J.Judge.meaning judge.judge) (J.Judge.lawful judge.judge)
        (J.MeasuringJudge.reckons judge.judge) (J.MeasuringJudge.measured judge.judge) };

    fn response(&self, judged: Judged) -> Option<u32> {
        let changed = self.stretched_case(judged)?;
        self.judge
            .response(changed.judged(judged.place, judged.above))
    }
}
