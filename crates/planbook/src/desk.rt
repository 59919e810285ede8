// Where the calls of a script are carried out: the library's own answers and refusals are handed on.
use crate::answer::{Answer, Planned};
use crate::call::{Call, Change, FileCall, PlanQuestion, TaskQuestion};
use crate::failure::Failure;
use crate::measure::Measure;
use book::Book;
use charts::inspect;
use entries::{Bar, LateRequest, List, first_at_or_after};
use judges::Judge;
use periods::{LONGEST_COMMON_PERIOD, LONGEST_PERIOD, MOST_TASKS};
use sheets::LONGEST_SHEET;
use std::fs;
use std::io::Read;
use std::marker::PhantomData;
use std::ops::Range;

// No sheet has more ticks to tell of, so no list that is as long is too short.
const MOST_TICKS: usize = LONGEST_PERIOD as usize + 2 * LONGEST_COMMON_PERIOD as usize + 1;

const BLANK_BAR: Bar = Bar {
    first: 0,
    length: 0,
    id: 0,
};

const BLANK_REQUEST: LateRequest = LateRequest {
    id: 0,
    request: 0,
    deadline: 0,
};

// The book that the calls change; M says whether its judge measures.
#[derive(Drop)]
pub struct Desk<'a, J, M> {
    rt: &'a HostRuntime,
    book: Book<J>,
    measure: PhantomData<M>,
}

impl<'a, J: Judge, M: Measure<J>> Desk<'a, J, M> {
    // An empty book over a judge.
    pub fn open(rt: &'a HostRuntime, judge: J) -> Desk<'a, J, M> {
        Desk {
            rt,
            book: Book::open(judge),
            measure: PhantomData,
        }
    }

    // What a line is answered; a line without words is answered by nothing.
    pub fn respond(&mut self, line: &[u8]) -> Result<Option<Answer>, Failure> {
        let words = script::words(self.rt.alloc(), line)?;
        Call::read(words.as_slice())?
            .map(|call| self.carry_out(call))
            .transpose()
    }

    fn carry_out(&mut self, call: Call) -> Result<Answer, Failure> {
        match call {
            Call::Change(change) => self.change(change),
            Call::Tasks(question) => self.ask_tasks(question),
            Call::Plan(question) => self.ask_plan(question),
            Call::File(call) => self.use_file(call),
        }
    }

    fn change(&mut self, change: Change) -> Result<Answer, Failure> {
        match change {
            Change::Enter { id, figures } => self.book.enter(id, figures)?,
            Change::Amend { id, figures } => self.book.amend(id, figures)?,
            Change::Strike { id } => self.book.strike(id)?,
            Change::Plan => {
                self.book.plan()?;
                return self.plan();
            }
        }
        Ok(Answer::Done)
    }

    // The plan that stands, by rising id.
    fn plan(&self) -> Result<Answer, Failure> {
        let mut tasks = Vec::new(self.rt.alloc());
        for row in self.book.table().rows() {
            tasks.push(Planned {
                id: row.id,
                start: self.book.start(row.id)?,
                level: self.book.level(row.id)?,
            })?;
        }
        Ok(Answer::Plan(tasks))
    }

    fn ask_tasks(&self, question: TaskQuestion) -> Result<Answer, Failure> {
        let table = self.book.table();
        let answer = match question {
            TaskQuestion::Count => Answer::Number(table.count() as u64),
            TaskQuestion::Ids => {
                let ids = table.rows().iter().map(|row| row.id);
                Answer::Ids(ids.collect(self.rt.alloc())?)
            }
            TaskQuestion::Period => Answer::Number(u64::from(table.common_period()?)),
            TaskQuestion::Demand => Answer::Number(u64::from(table.load()?)),
            TaskQuestion::Choices => Answer::Number(u64::from(table.choices()?.count())),
            TaskQuestion::Task { id } => Answer::Task(table.figures(id)?),
        };
        Ok(answer)
    }

    fn ask_plan(&self, question: PlanQuestion) -> Result<Answer, Failure> {
        let answer = match question {
            PlanQuestion::Planned => Answer::Truth(self.book.is_planned()),
            PlanQuestion::Start { id } => Answer::Number(u64::from(self.book.start(id)?)),
            PlanQuestion::Level { id } => Answer::Number(u64::from(self.book.level(id)?)),
            PlanQuestion::Response { id } => Answer::Number(u64::from(self.book.response(id)?)),
            PlanQuestion::Reckoned { id } => M::reckoned(&self.book, id)?,
            PlanQuestion::Chart { window } => Answer::Bars(self.bars(window)?),
            PlanQuestion::Bar { window, tick } => {
                Answer::Place(first_at_or_after(self.bars(window)?.as_slice(), tick))
            }
            PlanQuestion::Sheet => Answer::Sheet(self.sheet()?),
        };
        Ok(answer)
    }

    fn use_file(&self, call: FileCall) -> Result<Answer, Failure> {
        let answer = match call {
            FileCall::Store { file } => {
                let sheet = self.sheet()?;
                let count = sheet.len() as u64;
                fs::write(self.rt, file, sheet).map_err(|_| Failure::Unwritten)?;
                Answer::Number(count)
            }
            FileCall::Inspect { file } => Answer::Late(self.late_requests(file)?),
            FileCall::Late { file, tick } => {
                Answer::Place(first_at_or_after(self.late_requests(file)?.as_slice(), tick))
            }
        };
        Ok(answer)
    }

    // The bars of a window of the plan that stands.
    fn bars(&self, window: Range<u32>) -> Result<Vec<Bar>, Failure> {
        let slots = vec![in self.rt.alloc(); BLANK_BAR; MOST_TICKS]?;
        listed(slots, |list| self.book.chart(window, list))
    }

    // The bytes of the plan that stands.
    fn sheet(&self) -> Result<Vec<u8>, Failure> {
        let mut bytes = vec![in self.rt.alloc(); 0; LONGEST_SHEET]?;
        let count = self.book.store(bytes.as_mut_slice())?;
        bytes.truncate(count);
        Ok(bytes)
    }

    // The late requests of the sheet in a file.
    fn late_requests(&self, file: &str) -> Result<Vec<LateRequest>, Failure> {
        let bytes = self.read(file)?;
        let slots = vec![in self.rt.alloc(); BLANK_REQUEST; MOST_TASKS * MOST_TICKS]?;
        listed(slots, |list| inspect(bytes.as_slice(), list))
    }

    // The bytes of a file, and of a longer one than any sheet one byte more than the longest sheet has: so many are a fault
    // whatever follows them.
    fn read(&self, file: &str) -> Result<Vec<u8>, Failure> {
        let mut bytes = Vec::new(self.rt.alloc());
        fs::open(self.rt, file)
            .and_then(|file| file.take(LONGEST_SHEET as u64 + 1).read_to_end(&mut bytes))
            .map_err(|_| Failure::Unread)?;
        Ok(bytes)
    }
}

// The entries that a call lists in these slots.
fn listed<E: Copy, R: Drop, F: FnOnce(&mut List<E>) -> Result<(), R>>(
    mut slots: Vec<E>,
    fill: F,
) -> Result<Vec<E>, Failure>
where
    Failure: From<R>,
    requires { F.IsAlwaysCallable fill }
{
    let mut list = List::new(slots.as_mut_slice());
    fill(&mut list)?;
    let count = list.len();
    slots.truncate(count);
    Ok(slots)
}
