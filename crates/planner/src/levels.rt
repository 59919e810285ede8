// Filling the levels, from the lowest priority to the highest.
ghost use Rattle.std.specs.Prelude.{◌+◌, ◌<◌, length, MatchOption};
ghost use Rattle.judges.specs.Meaning.{tasks_of};
ghost use Rattle.planner.specs.Filling.{FilledFrom, NonePassesIn};
ghost use Rattle.planner.specs.Orders.{Ordered};

use crate::order::Order;
use crate::trial::Trial;
use judges::Judge;
use tasks::Case;

// An order of the tasks that passes with their starts, if there is one. The judge and the case stay two parameters here:
// a struct of both would have no other use.
pub fn order_for<J: Judge>(judge: &J, case: &Case) -> Option<Order>
    ensures { Ordered (J.Judge.meaning judge.now) case.now result }
{
    let count = case.rows().len();
    let mut order = Order::new(count);
    // A range: the position is the number itself.
    for position in (0..count).rev() {
        fill(judge, case, &mut order, position)?;
    }
    Some(order)
}

// Fills a position with a place that passes there, of those that no later position has. If none does, no order passes.
fn fill<J: Judge>(judge: &J, case: &Case, order: &mut Order, position: usize) -> Option<()>
    requires inside { position < length (tasks_of case.now) }
    requires later { FilledFrom (J.Judge.meaning judge.now) case.now order.old (position + 1) }
    ensures { MatchOption result (NonePassesIn (J.Judge.meaning judge.now) case.now) (λ _. FilledFrom (J.Judge.meaning judge.now) case.now order.new position) }
{
    // A range: the place is the number itself, and the order changes within.
    for place in (0..order.count()).rev() {
        let tried = order.position(place).unwrap();
        if tried <= position {
            let trial = Trial::open(order, tried, position);
            if trial.passes(judge, case) {
                trial.keep();
                return Some(());
            }
        }
    }
    None
}
