// Why a row has no answer.
use pg_syntax::SyntaxFault;
use std::alloc::{AllocError, AllocFailed};
use thiserror::Error;

/// Why a row has no answer.
#[derive(Clone, Copy, Debug, Error)]
pub enum RowFault {
    /// The row can't be read: what is wrong with it.
    #[error("no row: {0}")]
    Unread(&'static str),
    /// A term or formula of the row can't be read.
    #[error("no row: {0}")]
    Misread(SyntaxFault),
    /// There was no memory.
    #[error("out of memory")]
    OutOfMemory,
}

impl From<AllocError> for RowFault {
    fn from(_e: AllocError) -> RowFault {
        RowFault::OutOfMemory
    }
}

impl From<SyntaxFault> for RowFault {
    fn from(fault: SyntaxFault) -> RowFault {
        RowFault::Misread(fault)
    }
}

impl<T: Drop> From<AllocFailed<T>> for RowFault {
    fn from(_e: AllocFailed<T>) -> RowFault {
        RowFault::OutOfMemory
    }
}
