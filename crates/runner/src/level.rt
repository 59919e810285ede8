ghost use Rattle.std.specs.Prelude.{◌≡◌, ◌-◌, ◌≤◌};
ghost use Rattle.std.specs.Option.{unwrap_or};
ghost use Rattle.runner.specs.Levels.{last_tick, Rated, Kept, requested_at, starting, units_spent};

use tasks::Task;

// A task on a level: its work and period, the tick of its next request, and the units that are left of earlier ones.
#[derive(Clone, Copy, Default)]
pub(crate) struct Level {
    pub work: u32,
    pub period: u32,
    pub next: u32,
    pub left: u32,
}

impl Level {
    // A task whose first request falls at its start.
    pub fn of(task: Task, start: u32) -> Level
        ensures value { result ≡ starting task.figures start }
        ensures rated { Rated result }
    {
        let figures = task.figures();
        Level {
            work: u32::from(figures.work),
            period: u32::from(figures.period),
            next: start,
            left: 0,
        }
    }

    // With the units of a request that falls at this tick, if one does.
    pub fn requested(self, tick: u32) -> Option<Level>
        requires kept { Kept tick self }
        requires bounded { tick ≤ last_tick }
        ensures { unwrap_or result self ≡ requested_at tick self }
    {
        if self.next != tick {
            return None;
        }
        Some(Level {
            next: self.next + self.period,
            left: self.left + self.work,
            ..self
        })
    }

    // Without units that have been spent.
    pub fn less(self, units: u32) -> Level
        requires { units ≤ self.left }
        ensures { result ≡ units_spent units self }
    {
        Level {
            left: self.left - units,
            ..self
        }
    }
}
