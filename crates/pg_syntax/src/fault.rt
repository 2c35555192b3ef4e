// Why tokens are no term or formula.
ghost use Rattle.std.specs.Prelude.{◌≡◌};
ghost use Rattle.pg_syntax.specs.declared.fault.SyntaxFault.TheVariants.{OutOfMemory};

use pg_base::Wanted;
use std::alloc::AllocError;
use thiserror::Error;

/// Why tokens are no term or formula. Each `at` is a byte of the source: that of a token, or the end.
#[derive(Clone, Copy, Debug, PartialEq, Eq, Error)]
pub enum SyntaxFault {
    /// Nothing begins so, or a term stands where a formula is wanted or the reverse; `what` is a kind
    /// of thing that could stand at this place.
    #[error("expected {what} at byte {at}")]
    Expected { at: u32, what: Wanted },
    /// The name, number or sign at this place stands for nothing.
    #[error("what stands at byte {at} is not known")]
    Unknown { at: u32 },
    /// The name, number or sign at this place has another number of arguments than it needs.
    #[error("what stands at byte {at} has {has} arguments and needs {needs}")]
    Arity { at: u32, has: u16, needs: u16 },
    /// The token at this place is nested over 100.
    #[error("the token at byte {at} is nested over 100")]
    Deep { at: u32 },
    /// The token at this place is number 8,193.
    #[error("the token at byte {at} is number 8193")]
    Long { at: u32 },
    /// There was no memory.
    #[error("out of memory")]
    OutOfMemory,
}

impl From<AllocError> for SyntaxFault {
    ghost from_gives = { λ _ e. e ≡ OutOfMemory };

    fn from(_e: AllocError) -> SyntaxFault {
        SyntaxFault::OutOfMemory
    }
}
