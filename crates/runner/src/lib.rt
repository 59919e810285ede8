// The processor that runs tasks on levels, from event to event: a request, or an end of work.
#![tactic(auto)]

mod level;
mod not_taken;
mod processor;
mod runs;
mod span;
#[cfg(test)]
mod tests;

pub use not_taken::NotTaken;
pub use processor::Processor;
pub use runs::runs_at;
pub use span::Span;

// The tick at which a processor stops.
pub const LAST_TICK: u32 = 1_000_000;
