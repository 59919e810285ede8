// A set of places of a case.
ghost use Rattle.std.specs.Prelude.{◌≡◌, length};
ghost use Rattle.periods.specs.Multiples.{most_tasks};

use periods::MOST_TASKS;

mod calls;

// Some of the places 0 to 7. An answer for each place: a set in fixed memory, with none to keep in order.
#[derive(Clone, Copy)]
pub struct Places {
    has: [bool; MOST_TASKS],
    ghost width: { length has ≡ most_tasks },
}
