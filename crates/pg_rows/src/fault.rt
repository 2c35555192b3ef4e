// Why a row has no answer.
use std::alloc::AllocError;
use thiserror::Error;

/// Why a row has no answer.
#[derive(Clone, Copy, Debug, PartialEq, Eq, Error)]
pub enum RowFault {
    /// The row can't be read: what is wrong with it.
    #[error("no row: {0}")]
    Unread(&'static str),
    /// There was no memory.
    #[error("out of memory")]
    OutOfMemory,
}

impl From<AllocError> for RowFault {
    fn from(_e: AllocError) -> RowFault {
        RowFault::OutOfMemory
    }
}
