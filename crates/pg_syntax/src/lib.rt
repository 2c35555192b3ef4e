//! Reading and printing terms and formulas.
#![tactic(auto)]

mod application;
mod binders;
mod fault;
mod formula;
mod fresh;
mod names;
mod place;
mod print;
mod reader;
mod scope;
mod statement;
mod term;
mod written;

pub use fault::SyntaxFault;
pub use fresh::fresh_name;
pub use names::Names;
pub use print::{print_formula, print_term};
pub use reader::{read_formula, read_term};
pub use statement::{Binder, Statement, statement_formula};
