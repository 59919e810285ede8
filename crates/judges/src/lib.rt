// Judges: whether a task is in time below others.
#![tactic(auto)]

mod judge;
mod margin;
mod screen;
#[cfg(test)]
mod tests;
mod tick;
mod worst_start;

pub use judge::{Judge, MeasuringJudge};
pub use margin::Margin;
pub use screen::Screen;
pub use tick::Tick;
pub use worst_start::WorstStart;
