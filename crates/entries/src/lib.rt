// Entries of a plan: one list for every kind of them, and one search among those that tell a tick.
#![tactic(auto)]

ghost use Rattle.std.specs.Prelude.{◌≡◌, ℕ, map};
ghost use Rattle.entries.specs.Ticks.{FirstAtOrAfter};

mod list;
#[cfg(test)]
mod tests;

pub use list::List;

// A kind of entry that tells a tick.
pub trait Ticked {
    ghost when: { Self → ℕ };

    fn tick(&self) -> u32
        ensures { result ≡ when self.now };
}

// The place, counted from 1, of the first entry at or after a tick.
pub fn first_at_or_after<E: Ticked>(entries: &[E], tick: u32) -> Option<usize>
    ensures { FirstAtOrAfter (map E.Ticked.when entries.now) tick result }
{
    entries
        .iter()
        .position(|entry| entry.tick() >= tick)
        .map(|i| i + 1)
}

// A longest run of one id in a chart. Id 0 is idle: the shop's charts fix that number, and no task has it.
#[derive(Clone, Copy, PartialEq, Eq, Debug)]
pub struct Bar {
    pub first: u32,
    pub length: u32,
    pub id: u8,
}

// A bar tells its first tick.
impl Ticked for Bar {
    ghost when = { λ bar. bar.first };

    fn tick(&self) -> u32 {
        self.first
    }
}

// A request whose work is not done by its deadline.
#[derive(Clone, Copy, PartialEq, Eq, Debug)]
pub struct LateRequest {
    pub id: u8,
    pub request: u32,
    pub deadline: u32,
}

// A late request tells its deadline.
impl Ticked for LateRequest {
    ghost when = { λ late. late.deadline };

    fn tick(&self) -> u32 {
        self.deadline
    }
}
