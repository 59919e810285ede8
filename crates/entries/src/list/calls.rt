// What one can do with a list.
ghost use Rattle.std.specs.Prelude.{◌≡◌, [], length, ◌==◌};
ghost use Rattle.entries.specs.Lists.{held, slice_of, slots_of, Added, Filled, EmptiedFor, Refilled};

use super::List;
use refusals::Refusal;

impl<'a, E: Copy> List<'a, E> {
    // The empty list over these slots, whose content stays.
    pub fn new(slots: &'a mut [E]) -> List<'a, E>
        ensures empty { Filled slots.old [] result }
        ensures slice { slice_of result ≡ slots.entry.ghost_name }
    {
        List { slots, len: 0 }
    }

    // How many entries the list holds.
    pub fn len(&self) -> usize
        ensures { result ≡ length (held self.now) }
    {
        self.entries().len()
    }

    pub fn is_empty(&self) -> bool
        ensures { result ≡ (length (held self.now) == 0) }
    {
        self.len() == 0
    }

    // How many entries the list can hold: as many as its slice has slots.
    pub fn capacity(&self) -> usize
        ensures { result ≡ length (slots_of self.now) }
    {
        self.slots.len()
    }

    // The entries that the list holds.
    pub fn entries(&self) -> &[E]
        ensures { result.now ≡ held self.now }
    {
        &self.slots[0..self.len]
    }

    // Adds an entry behind the others, unless the slice is full.
    pub fn add(&mut self, entry: E) -> Result<(), Refusal>
        ensures { Added self.old entry result self.new }
    {
        if self.len == self.capacity() {
            return Err(Refusal::ListTooShort);
        }
        self.slots[self.len] = entry;
        self.len += 1;
        Ok(())
    }

    // Empties the list; its slots keep their content.
    pub fn clear(&mut self)
        ensures { Refilled self.old [] self.new }
    {
        self.len = 0;
    }

    // Empties the list for so many entries, unless its slice is too short for them.
    pub fn clear_for(&mut self, count: usize) -> Result<(), Refusal>
        ensures { EmptiedFor self.old count result self.new }
    {
        if count > self.capacity() {
            return Err(Refusal::ListTooShort);
        }
        self.clear();
        Ok(())
    }
}
