//! Lists of a few items, kept in the value itself: nothing allocates, and a list is copied as a number is.
#![tactic(auto)]

mod list;
#[cfg(test)]
mod tests;

pub use list::{Full, ShortList};
