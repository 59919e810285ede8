// Making and asking sets of places.
ghost use Rattle.std.specs.Prelude.{◌≡◌, ℕ, ◌<◌, ◌≤◌, false};
ghost use Rattle.periods.specs.Multiples.{most_tasks};
ghost use Rattle.tasks.specs.Places.{has as has_place, added};

use crate::places::Places;
use periods::MOST_TASKS;
use std::array;

impl Places {
    // No place.
    pub fn none() -> Places
        ensures { (place : ℕ) → has_place result place ≡ false }
    {
        Places {
            has: [false; MOST_TASKS],
        }
    }

    // The places for which a test says yes.
    pub fn from_fn<F: Fn(usize) -> bool>(test: F) -> Places
        requires { (place : ℕ) → place < most_tasks → F.pre test place }
        ensures inside { (place : ℕ) → place < most_tasks → F.post test place (has_place result place) }
        ensures beyond { (place : ℕ) → most_tasks ≤ place → has_place result place ≡ false }
    {
        Places {
            has: array::from_fn(test),
        }
    }

    // One place more; places past the eighth hold no task, and are passed over.
    pub fn add(&mut self, place: usize)
        ensures { (other : ℕ) → has_place self.new other ≡ added self.old place other }
    {
        // Not by `get_mut`: nothing is known in a proof of what is written through it.
        if place < MOST_TASKS {
            self.has[place] = true;
        }
    }

    pub fn contains(&self, place: usize) -> bool
        ensures { result ≡ has_place self.now place }
    {
        self.has.get(place).copied().unwrap_or(false)
    }
}
