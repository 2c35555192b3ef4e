// Names of variables.
use pg_terms::Name;

/// The names of the free variables, by number; `None` is a dead one.
#[derive(Drop)]
pub struct Names {
    pub vars: Vec<Option<Name>>,
}
