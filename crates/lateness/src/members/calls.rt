// What is reckoned of the members.
ghost use Rattle.std.specs.Prelude.{◌≡◌, ◌≤◌, Some, length};
ghost use Rattle.periods.specs.Multiples.{longest_common_period};
ghost use Rattle.timeline.specs.Laws.{load_through};
ghost use Rattle.lateness.specs.Members.{tasks_in, levels_in, MembersOf, MemberAt, CommonPeriod, StartsBy, Hosts};

use crate::members::Members;
use crate::members::walk::Walk;
use crate::running::put;
use periods::Periods;
use runner::Processor;
use tasks::{Judged, TimedTask};

impl<'a> Members<'a> {
    // The members of a judged place, if it holds a task.
    pub fn of(judged: Judged<'a>) -> Option<Members<'a>>
        ensures { MembersOf judged.entry result }
    {
        judged.case.task(judged.place)?;
        Some(Members { judged })
    }

    // How many places of the case hold a task.
    pub(super) fn places(&self) -> usize
        ensures { result ≡ length (tasks_in self.now) }
    {
        self.judged.case.rows().len()
    }

    // The task at a place and its start, if it is a member.
    pub(super) fn task(&self, place: usize) -> Option<TimedTask>
        ensures { MemberAt self.now place result }
    {
        if !self.judged.is_member(place) {
            return None;
        }
        self.judged.case.task(place)
    }

    // All members, in order of place.
    fn walk(self) -> Walk<'a>
        ensures members { result.members ≡ self.entry }
        ensures place { result.place ≡ 0 }
    {
        Walk {
            members: self,
            place: 0,
        }
    }

    // The judged task and its start.
    pub fn own(&self) -> TimedTask
        ensures { MemberAt self.now self.now.judged.place (Some result) }
    {
        self.judged.case.task(self.judged.place).unwrap()
    }

    // The common period of the members. A loop of its own: they come from a walk, and `tasks::periods_of` takes a slice. Of an
    // iterator it could tell the reason only of the periods that came, as it stops at the first that is not taken.
    pub fn common_period(self) -> u32
        ensures { CommonPeriod self.entry result }
    {
        let mut periods = Periods::new();
        for member in self.walk() {
            periods.add(member.timed.task.figures().period).unwrap();
        }
        periods.common_period().unwrap()
    }

    // The largest start of the members.
    pub fn latest_start(self) -> u32
        ensures { StartsBy self.entry result }
    {
        self.walk()
            .map(|member| u32::from(member.timed.start))
            .max()
            .unwrap_or(0)
    }

    // The work of the members in some ticks, a whole number of each period. A loop here: under a `fold` it stayed open that
    // the sum fits at each turn, since what bounds it is the place of the walk. The product stands in `tasks` too, where it asks
    // for few ticks: a public function could not.
    pub fn load(self, ticks: u32) -> u32
        requires { ticks ≤ longest_common_period }
        ensures { result ≡ load_through (tasks_in self.entry) (levels_in self.entry) (levels_in self.entry self.entry.judged.place) ticks }
    {
        let mut load = 0;
        for member in self.walk() {
            let figures = member.timed.task.figures();
            load += u32::from(figures.work) * (ticks / u32::from(figures.period));
        }
        load
    }

    // Those above in order of place, and the judged task below them, on a processor of their own. A loop of its own: they
    // come from a walk that passes the judged place too, and one loader of any iterator would have to be told what this gives.
    pub fn processor(self) -> Processor
        ensures { Hosts self.entry result }
    {
        let mut processor = Processor::new();
        for member in self.walk() {
            if member.place != self.judged.place {
                put(&mut processor, member.timed);
            }
        }
        put(&mut processor, self.own());
        processor
    }
}
