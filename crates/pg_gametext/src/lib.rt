//! Definitions and laws of game texts: which commands the tokens of a text are, the game that they mean, and
//! the first fault of a text that is none. The crate's functions are its laws.
#![tactic(auto)]

ghost use Rattle.pg_gametext.specs.Grammar.{ConstantLaw, CutLaw, FunctionLaw, LinksLaw, LinksStuckLaw};
ghost use Rattle.pg_gametext.specs.Grammar.{NamesLaw, NamesStuckLaw, OneLaw, OneStuckLaw, PredicateLaw, StatementLaw};
ghost use Rattle.pg_gametext.specs.Laws.{ClosedLaw, ReaderLaw, TextLaw};

/// Tokens are cut into commands in one way.
pub fn cut_law()
    ensures { CutLaw }
{}

/// One token alone is told exactly where it is one.
pub fn one_law()
    ensures { OneLaw }
{}

/// Names are told exactly where they are some.
pub fn names_law()
    ensures { NamesLaw }
{}

/// The worlds of a dependency are told exactly where they are one.
pub fn links_law()
    ensures { LinksLaw }
{}

/// Else the place is that of the first token with which no token of the kind stands alone.
pub fn one_stuck_law()
    ensures { OneStuckLaw }
{}

/// Else it is that of the first token with which no list of names begins so.
pub fn names_stuck_law()
    ensures { NamesStuckLaw }
{}

/// Else it is that of the first token with which no dependency begins so.
pub fn links_stuck_law()
    ensures { LinksStuckLaw }
{}

/// A function is told exactly where the tokens are one.
pub fn function_law()
    ensures { FunctionLaw }
{}

/// A constant is told exactly where the tokens are one.
pub fn constant_law()
    ensures { ConstantLaw }
{}

/// A predicate is told exactly where the tokens are one.
pub fn predicate_law()
    ensures { PredicateLaw }
{}

/// A statement is told exactly where the tokens are one.
pub fn statement_law()
    ensures { StatementLaw }
{}

/// The first fault of the first command that has one is the first fault of all commands.
pub fn reader_law()
    ensures { ReaderLaw }
{}

/// With the fault of a token, if there is one, it is the first fault of the text.
pub fn text_law()
    ensures { TextLaw }
{}

/// The closed formula of a statement is that of `statement_formula` of `pg_syntax`.
pub fn closed_law()
    ensures { ClosedLaw }
{}
