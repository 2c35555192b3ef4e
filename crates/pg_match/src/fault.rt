// Why nothing is found, or nothing replaced.
ghost use Rattle.std.specs.Prelude.{◌≡◌};
ghost use Rattle.pg_match.specs.declared.fault.MatchFault.TheVariants.{OutOfMemory};

use std::alloc::AllocError;
use thiserror::Error;

/// Why nothing is found, or nothing replaced.
#[derive(Clone, Copy, Debug, Error)]
pub enum MatchFault {
    /// The pattern is a hole alone.
    #[error("the pattern is a hole alone")]
    BarePattern,
    /// No subterm is an instance of the pattern.
    #[error("there is no instance of the pattern")]
    NoInstance,
    /// The hole of this number has no value. The holes are counted from 0, that of the outermost binder
    /// first, and it is the first hole without a value.
    #[error("nothing says what stands for the binder number {binder}")]
    Undetermined { binder: u32 },
    /// The result would have so many nodes, over the limit. A number over 2^64 - 1 is told as that.
    #[error("the result has {size} nodes")]
    TooLarge { size: u64 },
    /// There is no memory for what is found or made.
    #[error("out of memory")]
    OutOfMemory,
}

impl From<AllocError> for MatchFault {
    ghost from_gives = { λ _ e. e ≡ OutOfMemory };

    fn from(_: AllocError) -> Self {
        MatchFault::OutOfMemory
    }
}
