// Why nothing is read, and why nothing is declared.
ghost use Rattle.std.specs.Prelude.{◌≡◌};
ghost use Rattle.pg_declares.specs.Judged.{IsUnread};
ghost use Rattle.pg_declares.specs.declared.unread.Unread.TheVariants.{OutOfMemory};
ghost use Rattle.pg_declares.specs.declared.unread.Undeclared.TheVariants as undeclared;

use pg_base::Wanted;
use pg_faults::{Fault, Kind, LimitName};
use pg_syntax::SyntaxFault;
use std::alloc::AllocError;
use thiserror::Error;

/// Why a part of a game text means nothing.
#[derive(Clone, Copy, Debug, PartialEq, Eq, Error)]
pub enum Unread {
    /// Its first fault.
    #[error("it has a fault")]
    Faulty(Fault),
    /// There was no memory.
    #[error("out of memory")]
    OutOfMemory,
}

impl From<AllocError> for Unread {
    ghost from_gives = { λ _ e. e ≡ OutOfMemory };

    fn from(_e: AllocError) -> Unread {
        Unread::OutOfMemory
    }
}

/// Why what was read is not declared.
#[derive(Clone, Copy, Debug, PartialEq, Eq, Error)]
pub enum Undeclared {
    /// A function, a predicate or an axiom has one of the names that it brings, or two of these are equal.
    #[error("a name is taken")]
    NameTaken,
    /// There was no memory.
    #[error("out of memory")]
    OutOfMemory,
}

impl From<AllocError> for Undeclared {
    ghost from_gives = { λ _ e. e ≡ undeclared.OutOfMemory };

    fn from(_e: AllocError) -> Undeclared {
        Undeclared::OutOfMemory
    }
}

/// The fault of a text that is no formula or term: want of tokens, a limit or a name, at its place.
pub(crate) fn why_unread(fault: SyntaxFault) -> Unread
    ensures { IsUnread fault result }
{
    match fault {
        SyntaxFault::Expected { at, what } => faulty(at, Kind::Expected(what)),
        SyntaxFault::Unknown { at } => faulty(at, Kind::Unknown),
        SyntaxFault::Arity { at, .. } => faulty(at, Kind::Expected(Wanted::Term)),
        SyntaxFault::Deep { at } => faulty(at, Kind::Limit(LimitName::Nesting, 101)),
        SyntaxFault::Long { at } => faulty(at, Kind::Limit(LimitName::Tokens, 8193)),
        SyntaxFault::OutOfMemory => Unread::OutOfMemory,
    }
}

fn faulty(at: u32, kind: Kind) -> Unread
    ensures { result ≡ Unread.Faulty (record { at = at; kind = kind }) }
{
    Unread::Faulty(Fault { at, kind })
}
