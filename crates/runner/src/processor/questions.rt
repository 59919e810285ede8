ghost use Rattle.std.specs.Prelude.{◌≡◌, if◌then◌else◌, Some, None, nat_lt};
ghost use Rattle.runner.specs.Processor.{count_of, next_on, left_on};

use crate::processor::Processor;

impl Processor {
    // The tick up to which it has run.
    pub fn tick(&self) -> u32
        ensures { result ≡ self.now.tick }
    {
        self.tick
    }

    // How many levels have a task.
    pub fn count(&self) -> usize
        ensures { result ≡ count_of self.now }
    {
        self.levels.as_slice().len()
    }

    // The units that a level has left from before this tick; 0 on a level without a task, which owes nothing.
    pub fn left(&self, level: usize) -> u32
        ensures { result ≡ left_on self.now level }
    {
        self.levels.get(level).map_or(0, |level| level.left)
    }

    // The tick of a level's next request.
    pub fn next_request(&self, level: usize) -> Option<u32>
        ensures { result ≡ (if nat_lt level (count_of self.now) then Some (next_on self.now level) else None) }
    {
        self.levels.get(level).map(|level| level.next)
    }
}
