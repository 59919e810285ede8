// The margin: the judge below, with room for more work.
ghost use Rattle.std.specs.Prelude.{◌≤◌};
ghost use Rattle.judges.specs.Margin.{largest_margin};

mod calls;

// So many percent more work, of the judged task and of those above it.
#[derive(Drop)]
pub struct Margin<J> {
    percent: u16,
    judge: J,
    ghost small: { percent ≤ largest_margin },
}
