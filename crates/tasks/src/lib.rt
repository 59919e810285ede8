// Periodic tasks: their figures, the table of a controller's tasks, and cases of tasks with their starts.
#![tactic(auto)]

mod case;
mod figures;
mod judged;
mod places;
mod rows;
mod table;
mod task;
#[cfg(test)]
mod tests;

pub use case::Case;
pub use figures::Figures;
pub use judged::Judged;
pub use places::Places;
pub use rows::{HasFigures, Row, Timed, periods_of};
pub use table::Table;
pub use task::{Task, TimedTask};
