// What a call answers where it is accepted.
use entries::{Bar, LateRequest};
use std::fmt;
use tasks::Figures;

#[derive(Drop)]
pub enum Answer {
    Done,
    Number(u64),
    Place(Option<usize>),
    Truth(bool),
    Ids(Vec<u8>),
    Task(Figures),
    Plan(Vec<Planned>),
    Reckoned(Option<u32>),
    NoMeasure,
    Bars(Vec<Bar>),
    Late(Vec<LateRequest>),
    Sheet(Vec<u8>),
}

// What a plan gives the task with this id.
#[derive(Clone, Copy)]
pub struct Planned {
    pub id: u8,
    pub start: u16,
    pub level: u8,
}

impl fmt::Display for Planned {
    fn fmt<W: fmt::Write>(&self, f: &mut fmt::Formatter<W>) -> fmt::Result {
        let Planned { id, start, level } = self;
        write!(f, "{id}:{start}:{level}")
    }
}

impl fmt::Display for Answer {
    fn fmt<W: fmt::Write>(&self, f: &mut fmt::Formatter<W>) -> fmt::Result {
        if let Answer::NoMeasure = self {
            return f.write_str("no measure");
        }
        f.write_str("ok")?;
        match self {
            Answer::Done | Answer::NoMeasure => Ok(()),
            Answer::Number(number) => write!(f, " {number}"),
            Answer::Place(Some(place)) => write!(f, " {place}"),
            Answer::Reckoned(Some(response)) => write!(f, " {response}"),
            Answer::Place(None) | Answer::Reckoned(None) => f.write_str(" none"),
            Answer::Truth(true) => f.write_str(" yes"),
            Answer::Truth(false) => f.write_str(" no"),
            Answer::Ids(ids) => ids.iter().try_for_each(|id| write!(f, " {id}")),
            Answer::Task(figures) => {
                let Figures {
                    work,
                    period,
                    deadline,
                } = figures;
                write!(f, " {work} {period} {deadline}")
            }
            Answer::Plan(tasks) => tasks.iter().try_for_each(|task| write!(f, " {task}")),
            Answer::Bars(bars) => bars.iter().try_for_each(|bar| write!(
                f,
                " {}:{}:{}",
                bar.first, bar.length, bar.id
            )),
            Answer::Late(late) => late.iter().try_for_each(|late| write!(
                f,
                " {}:{}:{}",
                late.id, late.request, late.deadline
            )),
            Answer::Sheet(bytes) => bytes.chunks(2).try_for_each(|group| write_group(f, group)),
        }
    }
}

// A group of bytes in hexadecimal, behind a blank.
fn write_group<W: fmt::Write>(f: &mut fmt::Formatter<W>, group: &[u8]) -> fmt::Result {
    f.write_str(" ")?;
    group.iter().try_for_each(|byte| write!(f, "{byte:02X}"))
}
