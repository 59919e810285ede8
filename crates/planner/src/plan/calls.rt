// The calls of a plan.
ghost use Rattle.std.specs.Prelude.{◌≡◌, ◌≤◌, if◌then◌else◌, length, Some, None, nat_lt};
ghost use Rattle.periods.specs.Multiples.{most_tasks};
ghost use Rattle.planner.specs.Plans.{given_in, given_by, count_of, start_at, level_at};

use crate::order::Order;
use crate::plan::{Assignment, Plan};
use periods::MOST_TASKS;
use short_list::ShortList;

impl Plan {
    // A plan of these starts with the levels of an order.
    pub(crate) fn new(starts: [u16; MOST_TASKS], order: &Order) -> Plan
        ensures { given_in result ≡ given_by starts order.now }
    {
        // By place, since the order is asked by place.
        let given = (0..order.count()).map(|place| Assignment {
            start: starts[place],
            level: order.level(place).unwrap(),
        });
        Plan {
            given: ShortList::from_iter(given).unwrap(),
        }
    }

    // What the tasks are given, by place.
    pub fn assignments(&self) -> &[Assignment]
        ensures value { result.now ≡ given_in self.now }
        ensures few { length result.now ≤ most_tasks }
    {
        self.given.as_slice()
    }

    // How many tasks are planned.
    pub fn count(&self) -> usize
        ensures { result ≡ count_of self.now }
    {
        self.assignments().len()
    }

    pub fn start(&self, place: usize) -> Option<u16>
        ensures { result ≡ (if nat_lt place (count_of self.now) then Some (start_at self.now place) else None) }
    {
        self.given.get(place).map(|task| task.start)
    }

    pub fn level(&self, place: usize) -> Option<u8>
        ensures { result ≡ (if nat_lt place (count_of self.now) then Some (level_at self.now place) else None) }
    {
        self.given.get(place).map(|task| task.level)
    }
}
