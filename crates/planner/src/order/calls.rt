// The calls of an order.
ghost use Rattle.std.specs.Prelude.{◌≡◌, ℕ, ◌<◌, ◌≤◌, ◌==◌, min, if◌then◌else◌, length, Some, None, nat_lt};
ghost use Rattle.std.specs.List.{position as first_position};
ghost use Rattle.periods.specs.Multiples.{most_tasks};
ghost use Rattle.tasks.specs.Places.{has};
ghost use Rattle.planner.specs.Orders.{Exchanged, places_of, place_at, position_of, level_of};

use crate::order::Order;
use periods::MOST_TASKS;
use short_list::ShortList;
use tasks::Places;

impl Order {
    // The first places in their order; a count above eight is taken as eight.
    pub fn new(count: usize) -> Order
        ensures count { length (places_of result) ≡ min count most_tasks }
        ensures places { (place : ℕ) → place < length (places_of result) → place_at result place ≡ place }
    {
        Order {
            places: ShortList::from_iter(0..count.min(MOST_TASKS)).unwrap(),
        }
    }

    // How many places are ordered.
    pub fn count(&self) -> usize
        ensures value { result ≡ length (places_of self.now) }
        ensures few { result ≤ most_tasks }
    {
        self.places.as_slice().len()
    }

    // The place at a position.
    pub fn place_at(&self, position: usize) -> Option<usize>
        ensures { result ≡ (if nat_lt position (length (places_of self.now)) then Some (place_at self.now position) else None) }
    {
        self.places.get(position).copied()
    }

    // The level of a place.
    pub fn level(&self, place: usize) -> Option<u8>
        ensures { result ≡ (if nat_lt place (length (places_of self.now)) then Some (level_of self.now place) else None) }
    {
        self.position(place).map(|position| position as u8 + 1)
    }

    // The position of a place.
    pub(crate) fn position(&self, place: usize) -> Option<usize>
        ensures { result ≡ (if nat_lt place (length (places_of self.now)) then Some (position_of self.now place) else None) }
    {
        self.places.iter().position(|held| *held == place)
    }

    // Exchanges the places at two positions.
    pub(crate) fn exchange(&mut self, first: usize, second: usize)
        ensures { Exchanged first second self.old self.new }
    {
        self.places.swap(first, second);
    }

    // The places at the positions before this one. A loop: by a test of each of the eight places a search that finds no plan
    // took a seventh to a third more instructions.
    pub(crate) fn earlier(&self, position: usize) -> Places
        requires { position ≤ length (places_of self.now) }
        ensures { (place : ℕ) → place < length (places_of self.now) → has result place ≡ nat_lt (position_of self.now place) position }
    {
        let mut earlier = Places::none();
        for place in &self.places[..position] {
            earlier.add(*place);
        }
        earlier
    }
}
