//! Formal proofs, and the kernel that checks them.
#![tactic(auto)]

mod admitting;
mod checking;
mod copying;
mod goals;
mod named;
mod number;
mod premise;
mod proof;
mod rules;
mod theorems;

pub use admitting::{Checked, admit};
pub use checking::{Verdict, check};
pub use named::uses;
pub use proof::Proof;
pub use theorems::Theorems;
