// Loading a processor, and running it up to a tick.
ghost use Rattle.std.specs.Prelude.{◌≡◌, ◌<◌, ◌≤◌};
ghost use Rattle.periods.specs.Multiples.{most_tasks};
ghost use Rattle.runner.specs.Levels.{last_tick};
ghost use Rattle.runner.specs.Processor.{count_of};
ghost use Rattle.runner.specs.Running.{Added};
ghost use Rattle.lateness.specs.Running.{RanOn};

use runner::Processor;
use tasks::TimedTask;

// Puts a task below the others.
pub fn put(processor: &mut Processor, timed: TimedTask)
    requires start { processor.old.tick ≡ 0 }
    requires room { count_of processor.old < most_tasks }
    ensures { Added processor.old timed.task.figures timed.start processor.new }
{
    processor.add(timed.task, u32::from(timed.start)).unwrap();
}

// Runs up to a tick. Tells the tick at which the level last stopped running, if it ran. A loop here, since it looks at
// each span.
pub fn last_run(processor: &mut Processor, level: usize, until: u32) -> Option<u32>
    requires ahead { processor.old.tick ≤ until }
    requires bounded { until ≤ last_tick }
    ensures tick { processor.new.tick ≡ until }
    ensures ran { RanOn processor.old level result processor.new }
{
    let mut stopped = None;
    while let Some(span) = processor.advance(until) {
        if span.runs == Some(level) {
            stopped = Some(processor.tick());
        }
    }
    stopped
}
