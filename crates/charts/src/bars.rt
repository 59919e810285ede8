// The bars of a window that no one has been told of yet.
ghost use Rattle.std.specs.Prelude.{◌≤◌};
ghost use Rattle.runner.specs.Levels.{last_tick};

use crate::running::Running;

mod calls;

// The processor stands at the first tick of the window that no bar has told of yet.
#[derive(Clone, Copy)]
pub struct Bars<'s> {
    running: Running<'s>,
    to: u32,
    ghost before: { running.processor.tick ≤ to },
    ghost near: { to ≤ last_tick },
}
