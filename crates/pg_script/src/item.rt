// Scripts.
use pg_base::Token;
use sqlite_items::Items;

/// A script: the items of its own block, in order.
#[derive(Drop)]
pub struct Script<'a> {
    pub items: Items<Item<'a>>,
}

/// An item of a block.
#[derive(Drop)]
pub enum Item<'a> {
    /// A move.
    Move(MoveItem<'a>),
    /// A bullet with its block, which runs on the first goal alone.
    Focus(Items<Item<'a>>),
    /// A branch with its block, which runs on a copy of the goals. Only a sample has one.
    Branch(Items<Item<'a>>),
    /// A hint. Only a sample has one.
    Hint(HintItem<'a>),
}

/// A move.
#[derive(Drop)]
pub struct MoveItem<'a> {
    /// The byte at which the move's word begins.
    pub at: u32,
    /// The move's word, a name that isn't reserved.
    pub head: &'a str,
    pub form: Form<'a>,
}

/// What stands behind a move's word, by the word.
#[derive(Drop)]
pub enum Form<'a> {
    /// `rfl`, `left`, `right`, `constructor`, `exfalso`: nothing.
    Plain,
    /// `exact e`.
    Exact(Expr<'a>),
    /// `intro x ..`: at least one name.
    Intro(Items<Token<'a>>),
    /// `apply e` or `apply e at h`.
    Apply {
        expr: Expr<'a>,
        place: Option<Token<'a>>,
    },
    /// `rw [r, ..]` or `rw [r, ..] at h`: at least one rule.
    Rw {
        rules: Items<RwRule<'a>>,
        place: Option<Token<'a>>,
    },
    /// `induction n with x ..` or `cases h with x ..`, where `with` and its names may be left out.
    Split {
        name: Token<'a>,
        names: Items<Token<'a>>,
    },
    /// `use t, ..`: at least one term.
    Use(Items<Piece<'a>>),
    /// `symm` or `symm at h`.
    Symm(Option<Token<'a>>),
    /// `have h : A`, `have h := e` or `have h : A := e`: one of the two stands at least.
    Have {
        name: Token<'a>,
        formula: Option<Piece<'a>>,
        expr: Option<Expr<'a>>,
    },
    /// `revert x`.
    Revert(Token<'a>),
    /// `by_cases h : A`.
    ByCases {
        name: Token<'a>,
        formula: Piece<'a>,
    },
    /// Any other word, with any tokens.
    Unknown,
}

/// A rule of `rw`: `e`, or `← e`, which rewrites backwards.
#[derive(Drop)]
pub struct RwRule<'a> {
    pub back: bool,
    pub expr: Expr<'a>,
}

/// An expression: a name that isn't reserved, and its arguments. Parentheses around it are left out.
#[derive(Drop)]
pub struct Expr<'a> {
    pub name: Token<'a>,
    pub args: Items<Piece<'a>>,
}

/// At least one token, whose parentheses match. A piece is read as a term, a formula or an
/// expression only when its part of a move runs.
#[derive(Drop)]
pub struct Piece<'a> {
    pub tokens: Items<Token<'a>>,
    /// The byte at which the text's next token begins, or else the text's length in bytes.
    pub end: u32,
}

/// A hint: its text as it stands in the source, and its options.
#[derive(Clone, Copy, Debug)]
pub struct HintItem<'a> {
    /// The byte at which the word `Hint` begins.
    pub at: u32,
    pub text: &'a str,
    pub hidden: bool,
    pub strict: bool,
}
