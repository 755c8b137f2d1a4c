// Checks a script: a table of nodes is accepted exactly when it has the form
// of a script and VC's rules give it types.
#![tactic(auto)]

mod chain;
pub mod check;
mod declarations;
mod expressions;
mod form;
pub mod node;
pub mod note;
pub mod refusal;
mod script;
pub mod search;
mod shape;
pub mod shelf;
mod statements;
pub mod table;
pub mod types;

pub use check::{check_table, clear_notes};

#[cfg(test)]
mod tests;
