// Runs a checked script step by step over a memory.
#![tactic(auto)]

mod begin;
mod frame;
pub mod granting;
mod lawful;
mod machine;
pub mod opening;
pub mod refusal;
mod resume;
mod script;
pub mod session;
mod step;
#[cfg(test)]
mod tests;
pub mod trap;
mod turn;
pub mod verdict;

pub use granting::advance;
pub use lawful::MOST_INPUTS;
pub use opening::open;
