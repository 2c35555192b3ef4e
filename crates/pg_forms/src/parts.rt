// The parts of commands. All are borrowed from the tokens of the text.
use pg_base::Token;

/// Tokens that stand one behind the other.
#[derive(Clone, Copy)]
pub struct Span<'t, 'a> {
    pub tokens: &'t [Token<'a>],
    /// The byte at which the text's next token begins, or else the text's length in bytes.
    pub end: u32,
}

/// What was told of a command's tokens.
#[derive(Drop)]
pub struct Told<T> {
    /// The parts that stand before the place.
    pub value: T,
    /// The byte at which the first token begins with which no such command goes on, or the command's end where
    /// something is missing there. None where the tokens are such a command.
    pub stuck: Option<u32>,
}

/// A world, and one that needs it.
#[derive(Clone, Copy)]
pub struct Link<'a> {
    pub before: Token<'a>,
    pub after: Token<'a>,
}

/// An equation's name, and its tokens where they begin.
#[derive(Clone, Copy)]
pub struct Equation<'t, 'a> {
    pub name: Token<'a>,
    pub says: Option<Span<'t, 'a>>,
}

/// `f (x .. d) | n0 : l0 = r0 | n1 : l1 = r1`.
#[derive(Clone, Copy)]
pub struct FunctionText<'t, 'a> {
    pub name: Option<Token<'a>>,
    pub params: &'t [Token<'a>],
    pub at_zero: Option<Equation<'t, 'a>>,
    pub at_succ: Option<Equation<'t, 'a>>,
}

/// `c := term as name`.
#[derive(Clone, Copy)]
pub struct ConstantText<'t, 'a> {
    pub name: Option<Token<'a>>,
    pub body: Option<Span<'t, 'a>>,
    pub equation_name: Option<Token<'a>>,
}

/// `p (x ..) := formula` or `p := formula`.
#[derive(Clone, Copy)]
pub struct PredicateText<'t, 'a> {
    pub name: Option<Token<'a>>,
    pub params: &'t [Token<'a>],
    pub body: Option<Span<'t, 'a>>,
}

/// A binder of a statement.
#[derive(Clone, Copy)]
pub enum BinderText<'t, 'a> {
    /// `(x y : ℕ)`: at least one name.
    Variables(&'t [Token<'a>]),
    /// `(h : formula)`.
    Hypothesis(Token<'a>, Span<'t, 'a>),
}

/// `TEXT name binder .. : formula := by block`, where the text, the name and the binders may be left out.
#[derive(Drop)]
pub struct StatementText<'t, 'a> {
    pub name: Option<Token<'a>>,
    pub binders: Vec<BinderText<'t, 'a>>,
    pub target: Option<Span<'t, 'a>>,
    pub block: Option<Span<'t, 'a>>,
}
