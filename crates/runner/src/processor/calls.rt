ghost use Rattle.std.specs.Prelude.{◌≡◌, MatchResult, Err, Some, None};
ghost use Rattle.std.specs.Result.{result_err};
ghost use Rattle.runner.specs.Adding.{not_taken};
ghost use Rattle.runner.specs.Processor.{count_of, levels_of};
ghost use Rattle.runner.specs.Running.{Stands, nothing, Added, Advanced, RanTo};
ghost use Rattle.runner.specs.Steps.{RequestsTaken, ToRun, Soonest, Spent};

use crate::LAST_TICK;
use crate::level::Level;
use crate::not_taken::NotTaken;
use crate::processor::Processor;
use crate::span::Span;
use short_list::ShortList;
use tasks::Task;

impl Processor {
    // No task, at tick 0.
    pub fn new() -> Processor
        ensures tick { result.tick ≡ 0 }
        ensures count { count_of result ≡ 0 }
        ensures stands { Stands nothing result }
    {
        Processor {
            tick: 0,
            levels: ShortList::new(),
        }
    }

    // One more task, below the others, before the first tick; or why it is not taken, and then nothing changes.
    pub fn add(&mut self, task: Task, start: u32) -> Result<(), NotTaken>
        ensures value { result_err result ≡ not_taken self.old start }
        ensures after { MatchResult result (λ _. Added self.old task.figures start self.new) (λ _. self.new ≡ self.old) }
    {
        if self.tick > 0 {
            return Err(NotTaken::HasRun);
        }
        if start > LAST_TICK {
            return Err(NotTaken::LateStart);
        }
        self.levels
            .push(Level::of(task, start))
            .map_err(|_| NotTaken::NoLevel)
    }

    // Runs from this tick up to another at most, as long as the same level runs. None where it stands there or beyond,
    // or at the last tick.
    pub fn advance(&mut self, until: u32) -> Option<Span>
        ensures { Advanced self.old until result self.new }
    {
        let end = until.min(LAST_TICK);
        if end <= self.tick {
            return None;
        }
        self.take_requests();
        let runs = self.first_ready();
        let soonest = self.soonest(end);
        let from = self.tick;
        let length = self.spend(runs, soonest - from);
        self.tick = from + length;
        Some(Span { runs, from, length })
    }

    // Runs up to a tick, or to the last tick. Where it stands there or beyond, it stays.
    pub fn run_to(&mut self, until: u32)
        ensures { RanTo self.old until self.new }
    {
        while self.advance(until).is_some() {}
    }

    // The requests that fall at this tick bring their units. Most levels stay, and are not written.
    fn take_requests(&mut self)
        ensures { RequestsTaken self.old self.new }
    {
        let tick = self.tick;
        self.levels.update_some(|level| level.requested(tick));
    }

    // The highest level that has a unit.
    fn first_ready(&self) -> Option<usize>
        ensures { ToRun self.now result }
    {
        self.levels.iter().position(|level| level.left > 0)
    }

    // The soonest of the next requests, or `end` where it comes first.
    fn soonest(&self, end: u32) -> u32
        ensures { Soonest (levels_of self.now) end result }
    {
        self.levels
            .iter()
            .fold(end, |soonest, level| soonest.min(level.next))
    }

    // The level that is to run spends its units, one in each of so many ticks. Says how many ticks it takes.
    fn spend(&mut self, runs: Option<usize>, ticks: u32) -> u32
        requires { ToRun self.old runs }
        ensures { Spent self.old runs ticks result self.new }
    {
        let Some(level) = runs else {
            return ticks;
        };
        let ready = self.levels[level];
        let length = ticks.min(ready.left);
        self.levels.replace(level, ready.less(length));
        length
    }
}
