//! Verbs, routes, and the route of a path.
#![tactic(auto)]

pub mod path;
pub mod routing;

pub use path::{Route, Verb, path_of, route_of};
pub use routing::{Kind, routes};
