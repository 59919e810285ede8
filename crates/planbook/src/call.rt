// The calls that a script can make.
use crate::failure::LineFault;
use crate::reading::{read_figures, read_file, read_id, read_tick, read_window};
use std::ops::Range;
use tasks::Figures;

#[derive(Drop)]
pub enum Call<'a> {
    Change(Change),
    Tasks(TaskQuestion),
    Plan(PlanQuestion),
    File(FileCall<'a>),
}

// What changes the book.
#[derive(Clone, Copy)]
pub enum Change {
    Enter { id: u8, figures: Figures },
    Amend { id: u8, figures: Figures },
    Strike { id: u8 },
    Plan,
}

// What is asked about the tasks that stand.
#[derive(Clone, Copy)]
pub enum TaskQuestion {
    Count,
    Ids,
    Period,
    Demand,
    Choices,
    Task { id: u8 },
}

// What is asked about the plan that stands.
#[derive(Drop)]
pub enum PlanQuestion {
    Planned,
    Start { id: u8 },
    Level { id: u8 },
    Response { id: u8 },
    Reckoned { id: u8 },
    Chart { window: Range<u32> },
    Bar { window: Range<u32>, tick: u32 },
    Sheet,
}

// What is done with a file.
#[derive(Clone, Copy)]
pub enum FileCall<'a> {
    Store { file: &'a str },
    Inspect { file: &'a str },
    Late { file: &'a str, tick: u32 },
}

impl<'a> Call<'a> {
    // The call that the words make; no words make none.
    pub fn read(words: &[&'a [u8]]) -> Result<Option<Call<'a>>, LineFault> {
        if words.is_empty() {
            return Ok(None);
        }
        let call = if let Some(change) = Change::read(words)? {
            Call::Change(change)
        } else if let Some(question) = TaskQuestion::read(words)? {
            Call::Tasks(question)
        } else if let Some(question) = PlanQuestion::read(words)? {
            Call::Plan(question)
        } else if let Some(call) = FileCall::read(words)? {
            Call::File(call)
        } else {
            return Err(LineFault::NoCall);
        };
        Ok(Some(call))
    }
}

impl Change {
    fn read(words: &[&[u8]]) -> Result<Option<Change>, LineFault> {
        let change = match words {
            [b"enter", id, work, period, deadline] => Change::Enter {
                id: read_id(id)?,
                figures: read_figures(work, period, deadline)?,
            },
            [b"amend", id, work, period, deadline] => Change::Amend {
                id: read_id(id)?,
                figures: read_figures(work, period, deadline)?,
            },
            [b"strike", id] => Change::Strike { id: read_id(id)? },
            [b"plan"] => Change::Plan,
            _ => return Ok(None),
        };
        Ok(Some(change))
    }
}

impl TaskQuestion {
    fn read(words: &[&[u8]]) -> Result<Option<TaskQuestion>, LineFault> {
        let question = match words {
            [b"count"] => TaskQuestion::Count,
            [b"ids"] => TaskQuestion::Ids,
            [b"period"] => TaskQuestion::Period,
            [b"demand"] => TaskQuestion::Demand,
            [b"choices"] => TaskQuestion::Choices,
            [b"task", id] => TaskQuestion::Task { id: read_id(id)? },
            _ => return Ok(None),
        };
        Ok(Some(question))
    }
}

impl PlanQuestion {
    fn read(words: &[&[u8]]) -> Result<Option<PlanQuestion>, LineFault> {
        let question = match words {
            [b"planned"] => PlanQuestion::Planned,
            [b"start", id] => PlanQuestion::Start { id: read_id(id)? },
            [b"level", id] => PlanQuestion::Level { id: read_id(id)? },
            [b"response", id] => PlanQuestion::Response { id: read_id(id)? },
            [b"reckoned", id] => PlanQuestion::Reckoned { id: read_id(id)? },
            [b"chart", from, to] => PlanQuestion::Chart {
                window: read_window(from, to)?,
            },
            [b"bar", from, to, tick] => PlanQuestion::Bar {
                window: read_window(from, to)?,
                tick: read_tick(tick)?,
            },
            [b"sheet"] => PlanQuestion::Sheet,
            _ => return Ok(None),
        };
        Ok(Some(question))
    }
}

impl<'a> FileCall<'a> {
    fn read(words: &[&'a [u8]]) -> Result<Option<FileCall<'a>>, LineFault> {
        let call = match words {
            [b"store", file] => FileCall::Store {
                file: read_file(file)?,
            },
            [b"inspect", file] => FileCall::Inspect {
                file: read_file(file)?,
            },
            [b"late", file, tick] => FileCall::Late {
                file: read_file(file)?,
                tick: read_tick(tick)?,
            },
            _ => return Ok(None),
        };
        Ok(Some(call))
    }
}
