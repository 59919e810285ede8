// A script of calls as text: the words of a line, and the numbers among them.
#![tactic(auto)]

mod line;
mod number;

pub use line::words;
pub use number::number_up_to;
