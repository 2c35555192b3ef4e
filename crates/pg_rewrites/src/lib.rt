//! The tactics that match patterns: `rw` and `apply`.
#![tactic(auto)]

mod abstracting;
mod applying;
mod exchanging;
mod flipping;
mod measuring;
mod rewriting;
mod staging;
mod stripping;
mod taking;
mod unfixed;

pub use applying::{apply, apply_at};
pub use exchanging::{rewrite, rewrite_at};
