// A trial of an order: two of its places exchanged, until the trial is kept or ends.
ghost use Rattle.std.specs.Prelude.{◌≡◌, ◌<◌, length};
ghost use Rattle.judges.specs.Meaning.{Rules, tasks_of};
ghost use Rattle.planner.specs.declared.order.Order.{Order as AnOrder};
ghost use Rattle.planner.specs.Filling.{PassesAt};
ghost use Rattle.planner.specs.Orders.{Exchanged, places_of};

use crate::order::Order;
use judges::Judge;
use tasks::Case;

// The place at the position `tried` was exchanged with the one at the position that is being filled.
pub struct Trial<'a> {
    order: &'a mut Order,
    tried: usize,
    filled: usize,
}

impl<'a> Trial<'a> {
    // Exchanges the places at two positions; the place from the first is on trial at the second.
    pub fn open(order: &'a mut Order, from: usize, to: usize) -> Trial<'a>
        ensures exchanged { Exchanged from to order.old result.order.now }
        ensures positions { (result.tried ≡ from) × (result.filled ≡ to) }
        ensures named { result.order.ghost_name ≡ order.entry.ghost_name }
    {
        order.exchange(from, to);
        Trial {
            order,
            tried: from,
            filled: to,
        }
    }

    // Whether the place on trial passes with those before it above.
    pub(crate) fn passes<J: Judge>(&self, judge: &J, case: &Case) -> bool
        requires inside { self.now.filled < length (places_of self.now.order.now) }
        requires whole { length (places_of self.now.order.now) ≡ length (tasks_of case.now) }
        ensures { Rules result (PassesAt (J.Judge.meaning judge.now) case.now self.now.order.now self.now.filled) }
    {
        let place = self.order.place_at(self.filled).unwrap();
        judge.rule(case.judged(place, &self.order.earlier(self.filled)))
    }

    // Ends the trial with the places exchanged.
    pub fn keep(self)
        ensures { self.exit.0.now ≡ self.entry.order.now }
    {
        let Trial {
            order: _,
            tried: _,
            filled: _,
        } = self;
    }
}

// A trial that ends without being kept leaves the former order, on every way out.
impl Drop for Trial<'_> {
    fn drop(self)
        ensures { (former : AnOrder) → Exchanged self.entry.tried self.entry.filled former self.entry.order.now → self.exit.0.now ≡ former }
    {
        let Trial {
            order,
            tried,
            filled,
        } = self;
        order.exchange(tried, filled);
    }
}
