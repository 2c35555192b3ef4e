// Shapes of terms and formulas.
ghost use Rattle.std.specs.Prelude.{◌≡◌};
ghost use Rattle.pg_grammar.specs.Shapes as grammar;
ghost use Rattle.pg_shape.specs.View.{op, shape};

use sqlite_items::{Boxed, Items};

/// How strong an atom is: stronger than all else.
pub const ATOM: u8 = 101;

/// How strong an application, `succ` and a quantifier are: stronger than all signs.
pub const APPLICATION: u8 = 100;

/// How strong a negation is.
pub const NEGATION: u8 = 40;

/// A sign between two operands.
#[derive(Clone, Copy, Debug, PartialEq, Eq)]
pub enum Op {
    /// `→`
    Implies,
    /// `∨`
    Or,
    /// `∧`
    And,
    /// `=`
    Equal,
    /// `≠`
    NotEqual,
    /// `≤`
    LessEqual,
    /// `<`
    Less,
    /// `+`
    Plus,
    /// `*`
    Times,
    /// `^`
    Power,
}

/// A quantifier's sign.
#[derive(Clone, Copy, Debug, PartialEq, Eq)]
pub enum Quantifier {
    /// `∀`
    ForAll,
    /// `∃`
    Exists,
}

/// A name or a number, with the byte at which it stands.
#[derive(Clone, Copy, Debug)]
pub struct Word<'a> {
    pub at: u32,
    pub text: &'a str,
}

/// One name or more.
#[derive(Drop)]
pub struct Group<'a> {
    pub first: Word<'a>,
    pub others: Items<Word<'a>>,
}

/// A group in parentheses, with the byte at which it opens.
#[derive(Drop)]
pub struct Bracket<'a> {
    pub at: u32,
    pub names: Group<'a>,
}

/// The names of a quantifier.
#[derive(Drop)]
pub enum Binders<'a> {
    /// `x y`
    Plain(Group<'a>),
    /// `x y : ℕ`
    Typed(Group<'a>),
    /// `(x y : ℕ) (z : ℕ)`: one group or more, the last apart.
    Grouped(Items<Bracket<'a>>, Bracket<'a>),
}

/// A shape: how the tokens of a term or formula hang together by the strengths of signs. A number
/// is the byte at which the sign, the word or the opening parenthesis stands.
#[derive(Drop)]
pub enum Shape<'a> {
    /// A name.
    Named(Word<'a>),
    /// A number.
    Numeral(Word<'a>),
    /// `False`.
    Falsum(u32),
    /// A shape in parentheses.
    Paren(u32, Boxed<Shape<'a>>),
    /// `succ` at its first argument, an atom.
    Next(u32, Boxed<Shape<'a>>),
    /// A name, `succ` at its first argument, or such an application, at one argument more, an atom.
    App(Boxed<Shape<'a>>, Boxed<Shape<'a>>),
    /// `¬` before its operand.
    Neg(u32, Boxed<Shape<'a>>),
    /// A quantifier, its names and its body.
    Quant(u32, Quantifier, Binders<'a>, Boxed<Shape<'a>>),
    /// A sign between its left and its right operand.
    Binary(u32, Op, Boxed<Shape<'a>>, Boxed<Shape<'a>>),
}

impl Op {
    /// How strong the sign is.
    pub fn level(self) -> u8
        ensures { result ≡ grammar.level (op self) }
    {
        match self {
            Op::Implies => 25,
            Op::Or => 30,
            Op::And => 35,
            Op::Equal | Op::NotEqual | Op::LessEqual | Op::Less => 50,
            Op::Plus => 65,
            Op::Times => 70,
            Op::Power => 75,
        }
    }

    /// How strong its left operand is at least.
    pub fn left_min(self) -> u8
        ensures { result ≡ grammar.left_min (op self) }
    {
        match self {
            Op::Implies => 26,
            Op::Or => 31,
            Op::And => 36,
            Op::Equal | Op::NotEqual | Op::LessEqual | Op::Less => 51,
            Op::Plus => 65,
            Op::Times => 70,
            Op::Power => 76,
        }
    }

    /// How strong its right operand is at least.
    pub fn right_min(self) -> u8
        ensures { result ≡ grammar.right_min (op self) }
    {
        match self {
            Op::Implies | Op::Or | Op::And | Op::Power => self.level(),
            Op::Equal | Op::NotEqual | Op::LessEqual | Op::Less => 51,
            Op::Plus => 66,
            Op::Times => 71,
        }
    }
}

impl<'a> Shape<'a> {
    /// How strong the shape is.
    pub fn strength(&self) -> u8
        ensures { result ≡ grammar.strength (shape self.now) }
    {
        match self {
            Shape::Named(_) | Shape::Numeral(_) | Shape::Falsum(_) | Shape::Paren(..) => ATOM,
            Shape::Next(..) | Shape::App(..) | Shape::Quant(..) => APPLICATION,
            Shape::Neg(..) => NEGATION,
            Shape::Binary(_, op, _, _) => op.level(),
        }
    }

    /// Whether an argument may follow.
    pub fn can_apply(&self) -> bool
        ensures { result ≡ grammar.can_apply (shape self.now) }
    {
        matches!(self, Shape::Named(_) | Shape::Next(..) | Shape::App(..))
    }

    /// Whether the shape doesn't end in a quantifier outside parentheses. The recursion is as deep
    /// as the shape's last token is nested, but for a few right operands of `=`, `+` and `*`.
    pub fn is_closed(&self) -> bool
        ensures { result ≡ grammar.closed (shape self.now) }
    {
        match self {
            Shape::Neg(_, s) => s.get().is_closed(),
            Shape::Quant(..) => false,
            Shape::Binary(_, _, _, r) => r.get().is_closed(),
            _ => true,
        }
    }
}
