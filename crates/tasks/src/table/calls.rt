// The calls of a table.
ghost use Rattle.std.specs.Prelude.{◌≡◌, ◌≤◌, [], length, Some, None, ◌==◌};
ghost use Rattle.std.specs.List.{AllByRecursion};
ghost use Rattle.periods.specs.Listed.{ChoicesTimesPeriod, OneListedChoice};
ghost use Rattle.periods.specs.Lists.{ListsChoices};
ghost use Rattle.periods.specs.Multiples.{most_tasks, common_period, period_refusal, LeastCommonMultiple};
ghost use Rattle.periods.specs.Rows.{periods_of};
ghost use Rattle.refusals.specs.Answers.{answer, refuse_if, AnswersWith};
ghost use Rattle.refusals.specs.declared.Refusal.TheVariants.{ZeroId};
ghost use Rattle.tasks.specs.Figures.{Fair};
ghost use Rattle.tasks.specs.Loads.{load as load_of};
ghost use Rattle.tasks.specs.Rows.{row_of, Rising, figures_of, place_of, id_at, entered, amended, struck, standing_refusal, unknown_refusal, enter_refusal, amend_refusal};
ghost use Rattle.tasks.specs.Seeking.{StandsAt, BelongsAt, Sought};
ghost use Rattle.tasks.specs.Tables.{rows_of, figures_in, periods_held, Updated, OnlyAt};

use crate::figures::Figures;
use crate::rows::{Row, periods_of};
use crate::table::Table;
use periods::{Choices, Periods};
use refusals::Refusal;
use short_list::ShortList;

impl Table {
    // A table without tasks.
    pub fn new() -> Table
        ensures { rows_of result ≡ [] }
    {
        Table {
            rows: ShortList::new(),
        }
    }

    // The tasks that stand, in rising order of their ids.
    pub fn rows(&self) -> &[Row]
        ensures value { result.now ≡ rows_of self.now }
        ensures few { length result.now ≤ most_tasks }
        ensures rising { Rising 1 result.now }
        ensures fair { AllByRecursion (λ row. Fair row.figures) result.now }
    {
        self.rows.as_slice()
    }

    // How many tasks stand.
    pub fn count(&self) -> usize
        ensures { result ≡ length (rows_of self.now) }
    {
        self.rows().len()
    }

    // The id at a place, counted from 1.
    pub fn id_at(&self, place: usize) -> Option<u8>
        ensures { result ≡ id_at place (rows_of self.now) }
    {
        let row = self.rows.get(place.checked_sub(1)?)?;
        Some(row.id)
    }

    // Where an id stands, or else where it belongs, counted from 0. No task has the id 0.
    fn seek(&self, id: u8) -> Result<Result<usize, usize>, Refusal>
        ensures { AnswersWith (refuse_if (id == 0) ZeroId) (Sought id (rows_of self.now)) result }
    {
        if id == 0 {
            return Err(Refusal::ZeroId);
        }
        Ok(self.rows.binary_search_by_key(&id, |row| row.id))
    }

    // Where the id stands.
    fn find(&self, id: u8) -> Result<usize, Refusal>
        ensures { AnswersWith (unknown_refusal id (rows_of self.now)) (StandsAt id (rows_of self.now)) result }
    {
        self.seek(id)?.map_err(|_| Refusal::UnknownId)
    }

    // Where an id that does not stand belongs.
    fn find_gap(&self, id: u8) -> Result<usize, Refusal>
        ensures { AnswersWith (standing_refusal id (rows_of self.now)) (BelongsAt id (rows_of self.now)) result }
    {
        self.seek(id)?.err().ok_or(Refusal::StandingId)
    }

    // The figures of the task with this id.
    pub fn figures(&self, id: u8) -> Result<Figures, Refusal>
        ensures { AnswersWith (unknown_refusal id (rows_of self.now)) (λ figures. figures_of id (rows_of self.now) ≡ Some figures) result }
    {
        let at = self.find(id)?;
        Ok(self.rows[at].figures)
    }

    // The place of the task with this id, counted from 1.
    pub fn place(&self, id: u8) -> Result<usize, Refusal>
        ensures { result ≡ answer (unknown_refusal id (rows_of self.now)) (place_of id (rows_of self.now)) }
    {
        let at = self.find(id)?;
        Ok(at + 1)
    }

    // Adds a task; it takes its place among the ids.
    pub fn enter(&mut self, id: u8, figures: Figures) -> Result<(), Refusal>
        ensures updated { Updated (enter_refusal (row_of id figures) (rows_of self.old)) (entered (row_of id figures) (rows_of self.old)) self.old self.new result }
        ensures law { OnlyAt id (Some figures) self.old self.new result }
    {
        let at = self.find_gap(id)?;
        let row = Row::form(id, figures)?;
        self.rows
            .insert(at, row)
            .map_err(|_| Refusal::TooManyTasks)?;
        Ok(())
    }

    // Replaces the figures of a task.
    pub fn amend(&mut self, id: u8, figures: Figures) -> Result<(), Refusal>
        ensures updated { Updated (amend_refusal (row_of id figures) (rows_of self.old)) (amended (row_of id figures) (rows_of self.old)) self.old self.new result }
        ensures law { OnlyAt id (Some figures) self.old self.new result }
    {
        let at = self.find(id)?;
        let row = Row::form(id, figures)?;
        self.rows.replace(at, row);
        Ok(())
    }

    // Removes a task.
    pub fn strike(&mut self, id: u8) -> Result<(), Refusal>
        ensures updated { Updated (unknown_refusal id (rows_of self.old)) (struck id (rows_of self.old)) self.old self.new result }
        ensures law { OnlyAt id None self.old self.new result }
    {
        let at = self.find(id)?;
        self.rows.remove(at);
        Ok(())
    }

    // The periods of the tasks, in their places.
    pub fn periods(&self) -> Periods
        ensures { periods_of result ≡ periods_held self.now }
    {
        periods_of(self.rows()).unwrap()
    }

    // The least common multiple of the periods.
    pub fn common_period(&self) -> Result<u32, Refusal>
        ensures value { result ≡ answer (period_refusal (periods_held self.now)) (common_period (periods_held self.now)) }
        ensures least { LeastCommonMultiple (periods_held self.now) (common_period (periods_held self.now)) }
    {
        self.periods().common_period()
    }

    // The work that the tasks ask for in a common period.
    pub fn load(&self) -> Result<u32, Refusal>
        ensures { result ≡ answer (period_refusal (periods_held self.now)) (load_of (figures_in self.now)) }
    {
        let common = self.common_period()?;
        let load = self
            .rows()
            .iter()
            .map(|row| row.figures.work_in(common))
            .sum();
        Ok(load)
    }

    // The listed choices of starts: every choice of starts is related to exactly one of them.
    pub fn choices(&self) -> Result<Choices, Refusal>
        ensures value { ListsChoices (periods_held self.now) result }
        ensures one { OneListedChoice (periods_held self.now) }
        ensures number { ChoicesTimesPeriod (periods_held self.now) }
    {
        self.periods().choices()
    }
}
