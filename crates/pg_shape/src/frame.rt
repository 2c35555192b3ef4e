// What is still open behind the symbols that have been read.
ghost use Rattle.std.specs.Prelude.{◌≡◌, false, IfOk, MatchOption};
ghost use Rattle.pg_grammar.specs.Machine as machine;
ghost use Rattle.pg_shape.specs.View.{shape};
ghost use Rattle.pg_shape.specs.Frames.{frame, wants_atom};

use crate::shape::{ATOM, Binders, NEGATION, Op, Quantifier, Shape};
use pg_base::Wanted;
use sqlite_items::Boxed;
use std::alloc::{AllocError, Global};

/// Something that wants an operand.
#[derive(Drop)]
pub enum Frame<'a> {
    /// An open parenthesis.
    Paren(u32),
    /// `succ`, which wants an atom.
    Next(u32),
    /// What the operand is an argument of.
    Arg(Boxed<Shape<'a>>),
    /// `¬`
    Neg(u32),
    /// A quantifier with its names.
    Quant(u32, Quantifier, Binders<'a>),
    /// A sign with its left operand.
    Binary(u32, Op, Boxed<Shape<'a>>),
}

impl<'a> Frame<'a> {
    /// How strong its operand is at least.
    pub fn place(&self) -> u8
        ensures { result ≡ machine.place (frame self.now) }
    {
        match self {
            Frame::Paren(_) | Frame::Quant(..) => 0,
            Frame::Next(_) | Frame::Arg(_) => ATOM,
            Frame::Neg(_) => NEGATION,
            Frame::Binary(_, op, _) => op.right_min(),
        }
    }

    /// What its operand is: a formula, or a term. In an open parenthesis stands either.
    pub fn operand(&self) -> Wanted {
        match self {
            Frame::Neg(_) | Frame::Quant(..) => Wanted::Formula,
            Frame::Binary(_, Op::Implies | Op::Or | Op::And, _) => Wanted::Formula,
            _ => Wanted::Term,
        }
    }

    /// Whether its operand is an atom, which leaves it at once.
    pub fn wants_atom(&self) -> bool
        ensures { result ≡ wants_atom (frame self.now) }
    {
        matches!(self, Frame::Next(_) | Frame::Arg(_))
    }

    /// Whether it is an open parenthesis.
    pub fn is_paren(&self) -> bool
        ensures { result ≡ machine.is_paren (frame self.now) }
    {
        matches!(self, Frame::Paren(_))
    }

    /// The place of an open parenthesis, or None where it is none.
    pub fn paren(self) -> Option<u32>
        ensures { MatchOption result (machine.is_paren (frame self.entry) ≡ false) (λ at. frame self.entry ≡ machine.InParen at) }
    {
        match self {
            Frame::Paren(at) => Some(at),
            _ => None,
        }
    }

    /// The shape that it makes with its operand. It fails only for want of memory.
    pub fn leaving(
        self,
        alloc: Global,
        operand: Boxed<Shape<'a>>,
    ) -> Result<Boxed<Shape<'a>>, AllocError>
        ensures { IfOk result (λ s. shape s ≡ machine.leaving (frame self.entry) (shape operand.entry)) }
    {
        match self {
            Frame::Paren(at) => Boxed::new(alloc, Shape::Paren(at, operand)),
            Frame::Next(at) => Boxed::new(alloc, Shape::Next(at, operand)),
            Frame::Arg(f) => Boxed::new(alloc, Shape::App(f, operand)),
            Frame::Neg(at) => Boxed::new(alloc, Shape::Neg(at, operand)),
            Frame::Quant(at, q, names) => { Boxed::new(alloc, Shape::Quant(at, q, names, operand)) }
            Frame::Binary(at, op, left) => {
                Boxed::new(alloc, Shape::Binary(at, op, left, operand))
            }
        }
    }
}
