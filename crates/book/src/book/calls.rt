// The calls that change a book. A refused call leaves it as it was.
ghost use Rattle.std.specs.Prelude.{◌≡◌, MatchResult};
ghost use Rattle.std.specs.Fn.{FnOnceReturnsAtMut};
ghost use Rattle.tasks.specs.Tables.{rows_of as table_rows};
ghost use Rattle.tasks.specs.declared.table.Table.{Table};
ghost use Rattle.book.specs.Books.{rows_in};
ghost use Rattle.book.specs.Calls.{Opened, Leaves, Entered, Amended, Struck, PlanSought};

use crate::book::{Book, Held};
use crate::standing::StandingPlan;
use judges::Judge;
use planner::plan_for;
use refusals::Refusal;
use tasks::{Figures, Table};

impl<J> Book<J> {
    // An empty book over a judge.
    pub fn open(judge: J) -> Book<J>
        ensures { Opened judge result }
    {
        Book {
            judge,
            held: Held::Tasks(Table::new()),
        }
    }

    // Adds a task, and removes the plan.
    pub fn enter(&mut self, id: u8, figures: Figures) -> Result<(), Refusal>
        ensures { Entered id figures self.old result self.new }
    {
        self.change(|table| table.enter(id, figures))
    }

    // Replaces the figures of a task, and removes the plan.
    pub fn amend(&mut self, id: u8, figures: Figures) -> Result<(), Refusal>
        ensures { Amended id figures self.old result self.new }
    {
        self.change(|table| table.amend(id, figures))
    }

    // Removes a task, and the plan.
    pub fn strike(&mut self, id: u8) -> Result<(), Refusal>
        ensures { Struck id self.old result self.new }
    {
        self.change(|table| table.strike(id))
    }

    // Changes the tasks, and removes the plan; where the change is refused, neither.
    fn change<F: FnOnce(&mut Table) -> Result<(), Refusal>>(
        &mut self,
        change: F,
    ) -> Result<(), Refusal>
        requires { F.IsAlwaysCallable change }
        ensures { (before after : Table) × (table_rows before ≡ rows_in self.old)
            × FnOnceReturnsAtMut F.FnOnce change before result after
            × MatchResult result (λ _. Leaves (table_rows after) self.old self.new) (λ _. self.new ≡ self.old) }
    {
        let mut table = self.table();
        change(&mut table)?;
        self.held = Held::Tasks(table);
        Ok(())
    }
}

impl<J: Judge> Book<J> {
    // Chooses starts and an order that pass the judge, or says that no choice will do.
    pub fn plan(&mut self) -> Result<(), Refusal>
        ensures { PlanSought J.Judge.meaning self.old result self.new }
    {
        let table = self.table();
        let plan = plan_for(&self.judge, &table)?;
        self.held = Held::Plan(StandingPlan::of(&table, &plan));
        Ok(())
    }
}
