// What is asked of a task of the plan that stands.
ghost use Rattle.std.specs.Prelude.{◌≡◌, ℕ, ◌<◌, length};
ghost use Rattle.tasks.specs.Places.{has};
ghost use Rattle.charts.specs.Plans.{start_of, level_of};
ghost use Rattle.sheets.specs.Sheets.{rows_of};
ghost use Rattle.book.specs.Finding.{plan_of};
ghost use Rattle.book.specs.Plans.{above as above_of};
ghost use Rattle.book.specs.Questions.{RespondsAt, ReckonedIn};

use crate::standing::StandingPlan;
use crate::standing::task::PlannedTask;
use judges::MeasuringJudge;
use lateness::worst_response;
use sheets::SheetRow;
use tasks::Places;

impl StandingPlan {
    // The task at a place.
    pub(crate) fn task(&self, place: usize) -> PlannedTask
        requires { place < length (rows_of self.now.sheet) }
        ensures plan { result.plan.now ≡ self.now }
        ensures place { result.place ≡ place }
    {
        PlannedTask { plan: self, place }
    }
}

impl PlannedTask<'_> {
    fn row(&self) -> SheetRow
        ensures start { result.start ≡ start_of (plan_of self.now) self.now.place }
        ensures level { result.level ≡ level_of (plan_of self.now) self.now.place }
    {
        self.plan.sheet().rows()[self.place]
    }

    // The tick of the first request.
    pub(crate) fn start(&self) -> u16
        ensures { result ≡ start_of (plan_of self.now) self.now.place }
    {
        self.row().start
    }

    pub(crate) fn level(&self) -> u8
        ensures { result ≡ level_of (plan_of self.now) self.now.place }
    {
        self.row().level
    }

    // The places of smaller level.
    fn above(&self) -> Places
        ensures { (other : ℕ) → has result other ≡ above_of (plan_of self.now) self.now.place other }
    {
        let rows = self.plan.sheet().rows();
        let level = self.level();
        Places::from_fn(|other| rows.get(other).is_some_and(|row| row.level < level))
    }

    // The worst response on the endless timeline.
    pub(crate) fn response(&self) -> u32
        ensures { RespondsAt (plan_of self.now) self.now.place result }
    {
        worst_response(self.plan.case().judged(self.place, &self.above())).unwrap()
    }

    // The response that a judge reckons, with the tasks of smaller level above.
    pub(crate) fn reckoned<J: MeasuringJudge>(&self, judge: &J) -> Option<u32>
        ensures { ReckonedIn (J.Judge.meaning judge.now) (J.MeasuringJudge.reckons judge.now) (plan_of self.now) self.now.place result }
    {
        judge.response(self.plan.case().judged(self.place, &self.above()))
    }
}
