// What can be wrong with a sheet.
ghost use Rattle.std.specs.Prelude.{◌≡◌};
ghost use Rattle.sheets.specs.Faults.{entry_number, entry_cause, number_of, layer_of, place_of, cause_of};
ghost use Rattle.sheets.specs.declared.fault.EntryFault.TheVariants.{Figures};
ghost use Rattle.sheets.specs.declared.fault.SheetFault.TheVariants.{Entry, WrongCount};

use refusals::TaskFault;
use short_list::Full;
use std::fmt;
use thiserror::Error;

// What can be wrong with one entry.
#[derive(Clone, Copy, PartialEq, Eq, Debug, Error)]
pub enum EntryFault {
    #[error("an id is 0 or not above the one before")]
    UnsortedId,
    #[error(transparent)]
    Figures(TaskFault),
    #[error("a start is not below its period")]
    LateStart,
    #[error("a level is 0, above the number of tasks or taken")]
    WrongLevel,
}

// The first wrong entry: its place, counted from 1, and what is wrong with it.
#[derive(Clone, Copy, PartialEq, Eq, Debug, Error)]
#[error("{fault}")]
pub struct WrongEntry {
    pub place: usize,
    pub fault: EntryFault,
}

// What can be wrong with a sheet, in the order of the numbers; an entry has the numbers between.
#[derive(Clone, Copy, PartialEq, Eq, Debug, Error)]
pub enum SheetFault {
    #[error("a sheet has at least four bytes")]
    NoHeader,
    #[error("a sheet has one to eight tasks")]
    WrongCount,
    #[error("the length is not that of so many tasks, or not that of the bytes")]
    WrongLength,
    #[error(transparent)]
    Entry(WrongEntry),
    #[error("the common period is above 10,000")]
    LongCommonPeriod,
    #[error("the judge says no at a level")]
    RefusedLevel(u8),
}

// Which part of a reader finds a fault.
#[derive(Clone, Copy, PartialEq, Eq, Debug)]
pub enum Layer {
    Bytes,
    Entries,
    Order,
    Judge,
}

impl fmt::Display for Layer {
    fn fmt<W: fmt::Write>(&self, f: &mut fmt::Formatter<W>) -> fmt::Result {
        f.write_str(match self {
            Layer::Bytes => "bytes",
            Layer::Entries => "entries",
            Layer::Order => "order",
            Layer::Judge => "judge",
        })
    }
}

impl EntryFault {
    fn number(self) -> u8
        ensures { result ≡ entry_number self }
    {
        match self {
            EntryFault::UnsortedId => 43,
            EntryFault::Figures(_) => 44,
            EntryFault::LateStart => 45,
            EntryFault::WrongLevel => 46,
        }
    }

    fn layer(self) -> Layer
        ensures { result ≡ layer_of (entry_number self) }
    {
        match self {
            EntryFault::UnsortedId | EntryFault::Figures(_) | EntryFault::LateStart => {
                Layer::Entries
            }
            EntryFault::WrongLevel => Layer::Order,
        }
    }

    // What is wrong with the figures, where these are the fault.
    fn cause(self) -> Option<TaskFault>
        ensures { result ≡ entry_cause self }
    {
        match self {
            EntryFault::Figures(fault) => Some(fault),
            _ => None,
        }
    }
}

impl SheetFault {
    pub fn number(self) -> u8
        ensures { result ≡ number_of self }
    {
        match self {
            SheetFault::NoHeader => 40,
            SheetFault::WrongCount => 41,
            SheetFault::WrongLength => 42,
            SheetFault::Entry(wrong) => wrong.fault.number(),
            SheetFault::LongCommonPeriod => 47,
            SheetFault::RefusedLevel(_) => 48,
        }
    }

    pub fn layer(self) -> Layer
        ensures { result ≡ layer_of (number_of self) }
    {
        match self {
            SheetFault::NoHeader | SheetFault::WrongCount | SheetFault::WrongLength => Layer::Bytes,
            SheetFault::Entry(wrong) => wrong.fault.layer(),
            SheetFault::LongCommonPeriod => Layer::Order,
            SheetFault::RefusedLevel(_) => Layer::Judge,
        }
    }

    // The wrong entry, counted from 1, or the level that the judge refuses, or else 0: the shop's format has no other
    // way to say that there is none.
    pub fn place(self) -> usize
        ensures { result ≡ place_of self }
    {
        match self {
            SheetFault::Entry(wrong) => wrong.place,
            SheetFault::RefusedLevel(level) => usize::from(level),
            _ => 0,
        }
    }

    // What is wrong with the figures, where these are the fault.
    pub fn cause(self) -> Option<TaskFault>
        ensures { result ≡ cause_of self }
    {
        match self {
            SheetFault::Entry(wrong) => wrong.fault.cause(),
            _ => None,
        }
    }
}

// By hand, here and below: a clause names what each makes, and a derived one has no contract.
impl From<TaskFault> for EntryFault {
    ghost from_gives = { λ cause r. r ≡ Figures cause };

    fn from(cause: TaskFault) -> EntryFault {
        EntryFault::Figures(cause)
    }
}

impl From<WrongEntry> for SheetFault {
    ghost from_gives = { λ entry r. r ≡ Entry entry };

    fn from(entry: WrongEntry) -> SheetFault {
        SheetFault::Entry(entry)
    }
}

// More rows than a sheet holds.
impl From<Full> for SheetFault {
    ghost from_gives = { λ _ r. r ≡ WrongCount };

    fn from(_: Full) -> SheetFault {
        Self::WrongCount
    }
}
