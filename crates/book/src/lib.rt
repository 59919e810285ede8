// The plan book: the tasks of one controller and, where one stands, their plan, over one judge.
#![tactic(auto)]

mod book;
mod standing;
#[cfg(test)]
mod tests;

pub use book::Book;
