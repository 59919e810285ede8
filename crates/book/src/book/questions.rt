// The questions that a book answers.
ghost use Rattle.std.specs.Prelude.{◌≡◌, is_some};
ghost use Rattle.refusals.specs.Answers.{AnswersWith};
ghost use Rattle.tasks.specs.Tables.{rows_of as table_rows};
ghost use Rattle.book.specs.Books.{rows_in, plan_in, plan_refusal, ask_refusal};
ghost use Rattle.book.specs.declared.book.Held.TheVariants.{Plan};
ghost use Rattle.book.specs.Finding.{FoundAt};
ghost use Rattle.book.specs.Questions.{start_answer, level_answer, Responded, Reckoned};

use crate::book::{Book, Held};
use crate::standing::{PlannedTask, StandingPlan};
use judges::MeasuringJudge;
use refusals::Refusal;
use tasks::Table;

impl<J> Book<J> {
    // The tasks that stand: how many, their ids by place, their figures, their common period, load and listed choices.
    pub fn table(&self) -> Table
        ensures { table_rows result ≡ rows_in self.now }
    {
        match &self.held {
            Held::Tasks(table) => *table,
            Held::Plan(plan) => plan.table(),
        }
    }

    // The plan that stands.
    pub(super) fn standing(&self) -> Result<&StandingPlan, Refusal>
        ensures { AnswersWith (plan_refusal self.now) (λ plan. self.now.held ≡ Plan plan.now) result }
    {
        match &self.held {
            Held::Tasks(_) => Err(Refusal::NoStandingPlan),
            Held::Plan(plan) => Ok(plan),
        }
    }

    // Whether a plan stands.
    pub fn is_planned(&self) -> bool
        ensures { result ≡ is_some (plan_in self.now) }
    {
        self.standing().is_ok()
    }

    // A task of the plan that stands.
    fn planned(&self, id: u8) -> Result<PlannedTask, Refusal>
        ensures { AnswersWith (ask_refusal self.now id) (FoundAt self.now id) result }
    {
        let place = self.table().place(id)?;
        Ok(self.standing()?.task(place - 1))
    }

    // The tick of a task's first request.
    pub fn start(&self, id: u8) -> Result<u16, Refusal>
        ensures { result ≡ start_answer self.now id }
    {
        Ok(self.planned(id)?.start())
    }

    // The level of a task, 1 going first.
    pub fn level(&self, id: u8) -> Result<u8, Refusal>
        ensures { result ≡ level_answer self.now id }
    {
        Ok(self.planned(id)?.level())
    }

    // The worst response of a task on the endless timeline.
    pub fn response(&self, id: u8) -> Result<u32, Refusal>
        ensures { Responded self.now id result }
    {
        Ok(self.planned(id)?.response())
    }
}

impl<J: MeasuringJudge> Book<J> {
    // The response that the judge reckons for a task, with those of smaller level above it.
    pub fn reckoned(&self, id: u8) -> Result<Option<u32>, Refusal>
        ensures { Reckoned self.now (J.Judge.meaning self.now.judge) (J.MeasuringJudge.reckons self.now.judge) id result }
    {
        Ok(self.planned(id)?.reckoned(&self.judge))
    }
}
