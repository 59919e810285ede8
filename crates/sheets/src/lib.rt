// The sheet: tasks with their starts and levels, as bytes that the shop keeps.
#![tactic(auto)]

mod check;
mod fault;
mod row;
mod sheet;
#[cfg(test)]
mod tests;

pub use fault::{EntryFault, Layer, SheetFault, WrongEntry};
pub use row::SheetRow;
pub use sheet::{LONGEST_SHEET, Sheet};
