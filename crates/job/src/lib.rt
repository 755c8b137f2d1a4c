// A job: a script with its inputs, read from a sheet, and the report of its run.
#![tactic(auto)]

mod cut;
pub mod fault;
pub mod report;
pub mod run;
pub mod sheet;
#[cfg(test)]
mod tests;
