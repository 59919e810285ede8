// The deadlines of a sheet that have not been looked at yet.
ghost use Rattle.std.specs.Prelude.{◌≡◌, ◌<◌, ◌≤◌, length};
ghost use Rattle.runner.specs.Levels.{last_tick};
ghost use Rattle.sheets.specs.Sheets.{rows_of};
ghost use Rattle.charts.specs.Plans.{horizon};

use crate::running::Running;

mod calls;

// The deadlines from the tick of the processor on are ahead, and at this tick those from a place on. The place is a number,
// and no iterator over the rows, since the next tick begins at the first row again.
#[derive(Clone, Copy)]
pub struct Deadlines<'s> {
    running: Running<'s>,
    place: usize,
    last: u32,
    ghost inside: { place ≤ length (rows_of running.sheet.now) },
    ghost told: { last ≡ horizon (rows_of running.sheet.now) },
    ghost near: { last < last_tick },
}
