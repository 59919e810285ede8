// A task that runs below others.
ghost use Rattle.std.specs.Prelude.{List, MatchBool};
ghost use Rattle.tasks.specs.declared.figures.Figures.{Figures};
ghost use Rattle.timeline.specs.Laws.{AllFair, Decides, Overloaded, Independent, LessIsNeverLater, WorstStarts, StartsRelate};
ghost use Rattle.lateness.specs.Below.{LateBelow, NeverLateBelow, Responds, RespondsIn};

use crate::members::Members;
use crate::running::last_run;
use tasks::Judged;

// Whether some request of the judged task is late on the endless timeline, below the places above it. The judged place
// and places without a task count as not above; a judged place without a task is never late.
pub fn late_below(judged: Judged) -> bool
    ensures value { MatchBool result (LateBelow judged.entry.case.now judged.entry.place judged.entry.above.now) (NeverLateBelow judged.entry.case.now judged.entry.place judged.entry.above.now) }
    ensures decides { (tasks : List Figures) → AllFair tasks → Decides tasks }
    ensures overloaded { (tasks : List Figures) → AllFair tasks → Overloaded tasks }
    ensures independent { (tasks : List Figures) → Independent tasks }
    ensures less { (tasks : List Figures) → AllFair tasks → LessIsNeverLater tasks }
    ensures worst_starts { (tasks : List Figures) → AllFair tasks → WorstStarts tasks }
{
    Members::of(judged).is_some_and(|members| response(members).is_none())
}

// The worst response of the judged task below the places above it; None where it is ever late, or there is no task.
pub fn worst_response(judged: Judged) -> Option<u32>
    ensures value { Responds judged.entry.case.now judged.entry.place judged.entry.above.now result }
    ensures related { (tasks : List Figures) → AllFair tasks → StartsRelate tasks }
{
    response(Members::of(judged)?)
}

// The worst response of the judged task of some members; None where it is ever late.
fn response(members: Members) -> Option<u32>
    ensures { RespondsIn members.entry result }
{
    let period = members.common_period();
    if members.load(period) > period {
        return None;
    }
    let timed = members.own();
    let figures = timed.task.figures();
    // All repeats from here on: the requests up to this tick stand for all.
    let until = members.latest_start() + 2 * period;
    let mut processor = members.processor();
    let level = processor.count() - 1;
    let mut worst: u32 = 0;
    for request in (u32::from(timed.start)..until).step_by(usize::from(figures.period)) {
        // A request brings work: where its level does not run up to the deadline, it is late.
        let stopped = last_run(&mut processor, level, request + u32::from(figures.deadline))?;
        if processor.left(level) > 0 {
            return None;
        }
        worst = worst.max(stopped - request);
    }
    Some(worst)
}
