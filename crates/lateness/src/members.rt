// The tasks that bear on a judged one.
ghost use Rattle.std.specs.Prelude.{◌<◌, length};
ghost use Rattle.tasks.specs.Cases.{tasks_of};

use tasks::Judged;

mod calls;
mod walk;

// A judged place that holds a task, and the tasks above it: the members. The judged place and places without a task
// count as not above.
#[derive(Clone, Copy)]
pub struct Members<'a> {
    judged: Judged<'a>,
    ghost held: { judged.place < length (tasks_of judged.case.now) },
}
