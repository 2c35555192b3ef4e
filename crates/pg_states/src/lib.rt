//! The statement of a level: what it says, or the first fault of its formulas.
#![tactic(auto)]

mod draft;
mod formulas;
mod sizes;
mod statements;

pub use formulas::StatementFault;
pub use statements::read_statement;
