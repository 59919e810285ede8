// Tasks with levels of their own.
ghost use Rattle.std.specs.Prelude.{◌≡◌, ℕ, ◌<◌, ◌≤◌, List, length, Decides};
ghost use Rattle.tasks.specs.declared.figures.Figures.{Figures};
ghost use Rattle.timeline.specs.Laws.{AllFair, Repeats};
ghost use Rattle.lateness.specs.Ordered.{level_of, Within, OnlyPlace, OrderedOn, RunsIn};

use crate::running::put;
use runner::Processor;
use tasks::Case;

// Who runs in a tick of the endless timeline, where each of the levels from 1 is that of one place of the case: a
// place, or none. No answer if the levels are others, or the tick is too late for a processor. Two options, since these
// are two questions: whether there is an answer, and whether anybody runs.
pub fn runs_at(case: &Case, levels: &[u8], tick: u32) -> Option<Option<usize>>
    ensures value { RunsIn case.now levels.now tick result }
    ensures repeats { (tasks : List Figures) → AllFair tasks → Repeats tasks }
{
    let processor = ordered(case, levels)?;
    let runs = runner::runs_at(processor, tick)?;
    Some(runs.and_then(|level| only_place(levels, level + 1)))
}

// The tasks of the case on a processor, in the order of their levels. A loop of its own: they come level by level, and
// a level without a place of its own ends it.
fn ordered(case: &Case, levels: &[u8]) -> Option<Processor>
    ensures { OrderedOn case.now levels.now result }
{
    let count = case.rows().len();
    if levels.len() != count || !within(levels) {
        return None;
    }
    let mut processor = Processor::new();
    // The levels are counted: each number from 1 is a level.
    for level in 1..=count {
        let place = only_place(levels, level)?;
        put(&mut processor, case.task(place).unwrap());
    }
    Some(processor)
}

// Whether each level lies from 1 to their number.
fn within(levels: &[u8]) -> bool
    ensures { Decides result (Within levels.now) }
{
    levels
        .iter()
        .all(|level| *level > 0 && usize::from(*level) <= levels.len())
}

// The place that has a level, if only one has it.
fn only_place(levels: &[u8], level: usize) -> Option<usize>
    ensures { OnlyPlace levels.now level result }
{
    let first = levels
        .iter()
        .position(|other| usize::from(*other) == level)?;
    let last = levels
        .iter()
        .rposition(|other| usize::from(*other) == level)?;
    (first == last).then_some(first)
}
