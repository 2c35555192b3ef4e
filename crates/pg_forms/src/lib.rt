//! What stands behind a command's word in a game text: its parts, and the place of the first token with which
//! no such command goes on.
#![tactic(auto)]

mod declared;
mod kind;
mod link;
mod parts;
mod statement;
mod take;

pub use declared::{constant_told, function_told, predicate_told};
pub use kind::Kind;
pub use link::links_told;
pub use parts::{
    BinderText, ConstantText, Equation, FunctionText, Link, PredicateText, Span, StatementText,
    Told,
};
pub use statement::statement_told;
pub use take::{names_told, one_token};
