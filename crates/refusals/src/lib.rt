// Why a call was refused, in words and by the number under which the shop knows it.
#![tactic(auto)]

ghost use Rattle.std.specs.Prelude.{◌≡◌};
ghost use Rattle.refusals.specs.Numbers.{fault_number, refusal_number};
ghost use Rattle.refusals.specs.declared.Refusal.TheVariants.{Figures};

use thiserror::Error;

// What can be wrong with the figures of one task, in the order of their numbers.
#[derive(Clone, Copy, PartialEq, Eq, Debug, Error)]
pub enum TaskFault {
    #[error("a task has no work")]
    NoWork,
    #[error("a period is above 2,000")]
    LongPeriod,
    #[error("a deadline passes its period")]
    LateDeadline,
    #[error("the work passes its deadline")]
    LongWork,
}

// Each kind has a method of its own for its number, and no trait joins them: no code takes any kind that has a number.
impl TaskFault {
    pub fn number(self) -> u8
        ensures { result ≡ fault_number self }
    {
        match self {
            TaskFault::NoWork => 4,
            TaskFault::LongPeriod => 5,
            TaskFault::LateDeadline => 6,
            TaskFault::LongWork => 7,
        }
    }
}

// What a call answers in place of doing its work.
#[derive(Clone, Copy, PartialEq, Eq, Debug, Error)]
pub enum Refusal {
    #[error("an id is at least 1")]
    ZeroId,
    #[error("a task with this id stands already")]
    StandingId,
    #[error("no task has this id")]
    UnknownId,
    #[error(transparent)]
    Figures(TaskFault),
    #[error("eight tasks stand already")]
    TooManyTasks,
    #[error("a margin is above 100 percent")]
    LargeMargin,
    #[error("no task stands")]
    NoTask,
    #[error("the common period is above 10,000")]
    LongCommonPeriod,
    #[error("more than 10,000 choices are listed")]
    TooManyChoices,
    #[error("the load is above the common period")]
    Overload,
    #[error("no order passes the judge, whatever the starts")]
    NoPlan,
    #[error("no plan stands")]
    NoStandingPlan,
    #[error("a list or a buffer is too short")]
    ListTooShort,
    #[error("a window ends before it begins, or too late")]
    WrongWindow,
    #[error("a start is not below its period")]
    LateStart,
}

impl Refusal {
    pub fn number(self) -> u8
        ensures { result ≡ refusal_number self }
    {
        match self {
            Refusal::ZeroId => 1,
            Refusal::StandingId => 2,
            Refusal::UnknownId => 3,
            Refusal::Figures(fault) => fault.number(),
            Refusal::TooManyTasks => 8,
            Refusal::LargeMargin => 10,
            Refusal::NoTask => 20,
            Refusal::LongCommonPeriod => 21,
            Refusal::TooManyChoices => 22,
            Refusal::Overload => 23,
            Refusal::NoPlan => 24,
            Refusal::NoStandingPlan => 30,
            Refusal::ListTooShort => 31,
            Refusal::WrongWindow => 32,
            Refusal::LateStart => 45,
        }
    }
}

// Written out: the clauses of the crates above name the refusal that `?` makes, and a derived conversion has no contract.
impl From<TaskFault> for Refusal {
    ghost from_gives = { λ wrong r. r ≡ Figures wrong };

    fn from(wrong: TaskFault) -> Refusal {
        Refusal::Figures(wrong)
    }
}
