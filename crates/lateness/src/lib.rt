// Whether a task is ever late, its worst response, and who runs at a tick.
#![tactic(auto)]

mod below;
mod members;
mod order;
mod running;
#[cfg(test)]
mod tests;

pub use below::{late_below, worst_response};
pub use order::runs_at;
