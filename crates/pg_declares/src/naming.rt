// The names of what is declared.
ghost use Rattle.std.specs.Prelude.{◌≡◌, ◌≢◌, [], Bool, IfOk};
ghost use Rattle.pg_base.specs.Tokens.{word};
ghost use Rattle.pg_gametext.specs.Forms.{declared_text, sign_mark};
ghost use Rattle.pg_declares.specs.Judged.{Refuses, IsTaken, sign_text};

use crate::unread::Undeclared;
use pg_arith::DeclareFault;
use pg_base::{Sign, Token, TokenKind};
use pg_terms::Name;
use std::alloc::{AllocError, Global};

/// The name of what this token declares. It fails only for want of memory.
pub(crate) fn declared_name(alloc: Global, token: &Token<'_>) -> Result<Name, AllocError>
    requires { token.now.text.now ≢ [] }
    ensures { IfOk result (λ n. n ≡ declared_text (word token.now)) }
{
    match token.kind {
        TokenKind::Sign(sign) => Name::new(alloc, spelled(sign, token.text)),
        TokenKind::Name => Name::new(alloc, token.text),
        TokenKind::Number => Name::new(alloc, token.text),
        TokenKind::Text => Name::new(alloc, token.text),
    }
}

/// The first spelling of a sign that stands in a text so.
fn spelled<'a>(sign: Sign, text: &'a str) -> &'a str
    ensures is { result.now ≡ sign_text (sign_mark sign) text.now }
    ensures some { text.now ≢ [] → result.now ≢ [] }
{
    match sign {
        Sign::LessEqual => "≤",
        _ => text,
    }
}

/// Why a declaration of what fits is refused: nothing but its names is.
pub(crate) fn why_undeclared(fault: DeclareFault) -> Undeclared
    ensures { (taken : Bool) → Refuses taken fault → IsTaken taken result }
{
    match fault {
        DeclareFault::NameTaken => Undeclared::NameTaken,
        _ => Undeclared::OutOfMemory,
    }
}
