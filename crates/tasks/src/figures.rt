// The figures of a task.
ghost use Rattle.std.specs.Prelude.{◌≡◌, ◌≤◌, ◌*◌, ◌/◌};
ghost use Rattle.periods.specs.Multiples.{longest_common_period};
ghost use Rattle.tasks.specs.Figures.{Fair, breaks as breaks_it, first_fault};

use periods::LONGEST_PERIOD;
use refusals::TaskFault;

// Every fault, in the order of their numbers.
pub const FAULTS: [TaskFault; 4] = [
    TaskFault::NoWork,
    TaskFault::LongPeriod,
    TaskFault::LateDeadline,
    TaskFault::LongWork,
];

// Work, period and deadline in ticks; the deadline counts from the request.
#[derive(Clone, Copy, PartialEq, Eq, Debug, Default)]
pub struct Figures {
    pub work: u16,
    pub period: u16,
    pub deadline: u16,
}

impl Figures {
    pub fn new(work: u16, period: u16, deadline: u16) -> Figures
        ensures work { result.work ≡ work }
        ensures period { result.period ≡ period }
        ensures deadline { result.deadline ≡ deadline }
    {
        Figures {
            work,
            period,
            deadline,
        }
    }

    // The first fault that the figures have.
    pub(crate) fn first_fault(self) -> Option<TaskFault>
        ensures { result ≡ first_fault self }
    {
        FAULTS.iter().find(|fault| self.breaks(**fault)).copied()
    }

    // Whether the figures have this fault.
    pub fn breaks(self, fault: TaskFault) -> bool
        ensures { result ≡ breaks_it self fault }
    {
        match fault {
            TaskFault::NoWork => self.work == 0,
            TaskFault::LongPeriod => self.period > LONGEST_PERIOD,
            TaskFault::LateDeadline => self.deadline > self.period,
            TaskFault::LongWork => self.work > self.deadline,
        }
    }

    // The work of the requests of some ticks, a whole number of periods.
    pub(crate) fn work_in(self, ticks: u32) -> u32
        requires fair { Fair self }
        requires short { ticks ≤ longest_common_period }
        ensures { result ≡ self.work * (ticks / self.period) }
    {
        u32::from(self.work) * (ticks / u32::from(self.period))
    }
}
