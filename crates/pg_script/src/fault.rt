// Faults of scripts.
use pg_base::{LexFault, Wanted};
use std::alloc::AllocError;
use thiserror::Error;

/// Why a text is no script: the fault of least place, but too long a text comes first.
#[derive(Clone, Copy, Debug, PartialEq, Eq, Error)]
pub enum ScriptFault {
    /// The script has over 16,384 bytes. `at` is the place of the byte after the first 16,384.
    #[error("the script goes on at byte {at}, past its 16384 bytes")]
    TooLong { at: u32 },
    /// A token or a comment has a fault.
    #[error("{0}")]
    Lex(LexFault),
    /// No script begins with the tokens up to the one at `at`, or none ends there. `what` could stand there.
    #[error("expected {what} at byte {at}")]
    Expected { at: u32, what: Wanted },
    /// The script's 201st step is at `at`.
    #[error("the step at byte {at} is number 201")]
    TooMany { at: u32 },
    /// A block within 16 others begins at `at`, or a parenthesis within 100 others opens there.
    #[error("the block or the parenthesis at byte {at} is nested too deep")]
    Deep { at: u32 },
    /// There is no memory for the script.
    #[error("out of memory")]
    OutOfMemory,
}

impl From<AllocError> for ScriptFault {
    ghost use Rattle.std.specs.Prelude.{◌≡◌};
    ghost use Rattle.pg_script.specs.declared.fault.ScriptFault.TheVariants as fault;

    ghost from_gives = { λ _ e. e ≡ fault.OutOfMemory };

    fn from(_: AllocError) -> Self {
        ScriptFault::OutOfMemory
    }
}
