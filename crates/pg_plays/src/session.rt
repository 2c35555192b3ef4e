// What rows have said for the rows behind them.
use pg_arith::Signature;
use pg_syntax::Statement;
use pg_terms::Formula;
use sqlite_items::Boxed;
use std::alloc::{AllocError, Global};

/// What rows have said for the rows behind them.
#[derive(Drop)]
pub struct Session {
    /// What is declared.
    pub sig: Signature,
    /// The words of the moves and the names of the theorems that are locked, with blanks between.
    pub locked: String,
    /// The statement that scripts are run on.
    pub statement: Boxed<Statement>,
}

impl Session {
    /// Nothing is declared or locked, and the statement is `False`. It fails only for want of memory.
    pub fn new(alloc: Global) -> Result<Session, AllocError> {
        let statement = Statement {
            binders: Vec::new(alloc),
            target: Formula::Falsum,
        };
        Ok(Session {
            sig: Signature::new(alloc)?,
            locked: String::new(alloc),
            statement: Boxed::new(alloc, statement)?,
        })
    }
}
