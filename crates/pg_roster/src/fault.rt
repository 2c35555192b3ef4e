// Faults of rosters.
use std::alloc::{AllocError, AllocFailed};
use thiserror::Error;

/// Why a file is no roster: the first of these in their order, those with a row by row. Rows are
/// counted from 1, the header not among them.
#[derive(Clone, Copy, Debug, PartialEq, Eq, Error)]
pub enum RosterFault {
    /// The file has over 65,536 bytes.
    #[error("the roster is longer than 65536 bytes")]
    TooLong,
    /// The first record isn't `player,pass`.
    #[error("the roster does not begin with player,pass")]
    Header,
    /// The row hasn't two fields.
    #[error("row {row} has not two fields")]
    Width { row: u32 },
    /// The player isn't 1 to 32 letters, digits, `-` or `_` of ASCII.
    #[error("row {row} names no player")]
    Player { row: u32 },
    /// The pass isn't 1 to 64 bytes from 0x21 to 0x7E.
    #[error("row {row} has no pass")]
    Pass { row: u32 },
    /// A row before names that player.
    #[error("row {row} has a player of a row before")]
    PlayerTwice { row: u32 },
    /// A row before has that pass.
    #[error("row {row} has a pass of a row before")]
    PassTwice { row: u32 },
    /// The row is the 257th.
    #[error("row {row} is one too many")]
    TooMany { row: u32 },
    /// No row comes after the header.
    #[error("the roster has no player")]
    Empty,
    /// There is no memory for the roster.
    #[error("out of memory")]
    OutOfMemory,
}

impl From<AllocError> for RosterFault {
    ghost use Rattle.std.specs.Prelude.{◌≡◌};
    ghost use Rattle.pg_roster.specs.declared.fault.RosterFault.TheVariants as fault;

    ghost from_gives = { λ _ e. e ≡ fault.OutOfMemory };

    fn from(_: AllocError) -> Self {
        RosterFault::OutOfMemory
    }
}

impl<T: Drop> From<AllocFailed<T>> for RosterFault {
    ghost use Rattle.std.specs.Prelude.{◌≡◌};
    ghost use Rattle.pg_roster.specs.declared.fault.RosterFault.TheVariants as fault;

    ghost from_gives = { λ _ e. e ≡ fault.OutOfMemory };

    fn from(_: AllocFailed<T>) -> Self {
        RosterFault::OutOfMemory
    }
}
