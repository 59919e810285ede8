// Plans: starts and an order of the tasks that pass a judge. Any judge will do.
#![tactic(auto)]

mod choosing;
mod levels;
mod order;
mod plan;
#[cfg(test)]
mod tests;
mod trial;

pub use choosing::{plan_for, search};
pub use levels::order_for;
pub use order::Order;
pub use plan::{Assignment, Plan};
pub use trial::Trial;
