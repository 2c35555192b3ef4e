//! Signatures: functions by primitive recursion, constants and predicates with their names, and the
//! axioms that they bring.
#![tactic(auto)]

mod axioms;
mod checks;
mod declaring;
mod fitting;
pub mod laws;
mod lookups;
mod postfix;
mod signature;
mod values;

pub use declaring::DeclareFault;
pub use signature::Signature;
pub use values::ValueFault;
