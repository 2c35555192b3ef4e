// Where a reading stands, and one symbol more.
ghost use Rattle.std.specs.Prelude.{◌≡◌, ◌||◌, Some, option_map, IfOk};
ghost use Rattle.pg_grammar.specs.Shapes as grammar;
ghost use Rattle.pg_grammar.specs.Machine as machine;
ghost use Rattle.pg_shape.specs.View.{op, quantifier, shape as shape_in};
ghost use Rattle.pg_shape.specs.Symbols.{sym};
ghost use Rattle.pg_shape.specs.Headings.{heading};
ghost use Rattle.pg_shape.specs.Frames.{frame as frame_in};
ghost use Rattle.pg_shape.specs.States.{stack as frames_in, state, operand};

use crate::frame::Frame;
use crate::heading::Heading;
use crate::shape::{APPLICATION, NEGATION, Op, Quantifier, Shape};
use crate::stack::Stack;
use crate::symbol::Sym;
use pg_base::Wanted;
use sqlite_items::Boxed;
use std::alloc::{AllocError, Global};

/// Where a reading stands.
#[derive(Drop)]
pub enum State<'a> {
    /// An operand is wanted in these frames.
    Wants(Stack<'a>),
    /// An operand stands in them.
    Has(Stack<'a>, Boxed<Shape<'a>>),
    /// In them stands a quantifier, and its names are wanted.
    Binds(Stack<'a>, u32, Quantifier, Heading<'a>),
}

impl<'a> State<'a> {
    /// The state behind one symbol more, or None where no shape goes on so. It fails only for want of
    /// memory.
    pub fn step(self, alloc: Global, symbol: Sym<'a>) -> Result<Option<State<'a>>, AllocError>
        ensures { IfOk result (λ o. option_map state o ≡ machine.step (state self.entry) (sym symbol.entry)) }
    {
        match self {
            State::Wants(frames) => wants(alloc, frames, symbol),
            State::Has(frames, left) => has(alloc, frames, left, symbol),
            State::Binds(frames, at, q, names) => binds(alloc, frames, at, q, names, symbol),
        }
    }

    /// The shape that all symbols are, or None where they are none yet. It fails only for want of
    /// memory.
    pub fn ended(self, alloc: Global) -> Result<Option<Boxed<Shape<'a>>>, AllocError>
        ensures { IfOk result (λ o. option_map shape_in o ≡ machine.ended (state self.entry)) }
    {
        match self {
            State::Has(frames, inner) => {
                let Operand { stack, shape } = reduced(alloc, frames, inner, None)?;
                let (top, _outer) = stack.popped();
                match top {
                    None => Ok(Some(shape)),
                    Some(_) => Ok(None),
                }
            }
            _ => Ok(None),
        }
    }

    /// How deep the last symbol is nested.
    pub fn depth(&self) -> u64
        ensures { result ≡ machine.depth (state self.now) }
    {
        match self {
            State::Wants(frames) => frames.opening_depth(),
            State::Has(frames, _) => frames.nesting(),
            State::Binds(frames, _, _, names) => names.depth(frames.nesting()),
        }
    }

    /// What could stand next.
    pub fn wanted(&self) -> Wanted {
        match self {
            State::Wants(frames) => frames.operand(),
            State::Has(..) => Wanted::SignOrEnd,
            State::Binds(_, _, _, names) => names.wanted(),
        }
    }
}

/// An operand is wanted, and this symbol stands there.
fn wants<'a>(
    alloc: Global,
    frames: Stack<'a>,
    symbol: Sym<'a>,
) -> Result<Option<State<'a>>, AllocError>
    ensures { IfOk result (λ o. option_map state o ≡ machine.step (machine.Wants (frames_in frames.entry)) (sym symbol.entry)) }
{
    match symbol {
        Sym::Name(x) => settled_atom(alloc, frames, Shape::Named(x)),
        Sym::Number(n) => settled_atom(alloc, frames, Shape::Numeral(n)),
        Sym::False(at) => settled_atom(alloc, frames, Shape::Falsum(at)),
        Sym::Succ(at) => {
            if frames.wanted() > APPLICATION {
                return Ok(None);
            }
            Ok(Some(State::Wants(frames.pushed(Frame::Next(at))?)))
        }
        Sym::Not(at) => {
            if frames.wanted() > NEGATION {
                return Ok(None);
            }
            Ok(Some(State::Wants(frames.pushed(Frame::Neg(at))?)))
        }
        Sym::Quantifier(at, q) => {
            if frames.wanted() > APPLICATION {
                return Ok(None);
            }
            Ok(Some(State::Binds(frames, at, q, Heading::new(alloc))))
        }
        Sym::Open(at) => Ok(Some(State::Wants(frames.pushed(Frame::Paren(at))?))),
        _ => Ok(None),
    }
}

/// An atom stands there, and leaves a frame that wants one.
fn settled_atom<'a>(
    alloc: Global,
    frames: Stack<'a>,
    atom: Shape<'a>,
) -> Result<Option<State<'a>>, AllocError>
    ensures { IfOk result (λ o. option_map state o ≡ Some (machine.settled (frames_in frames.entry) (shape_in atom.entry))) }
{
    let atom = Boxed::new(alloc, atom)?;
    Ok(Some(settled(alloc, frames, atom)?))
}

/// An atom leaves a frame that wants one.
#[tactic(auto, using(crate::proofs::Reading::settles))]
fn settled<'a>(
    alloc: Global,
    frames: Stack<'a>,
    atom: Boxed<Shape<'a>>,
) -> Result<State<'a>, AllocError>
    ensures { IfOk result (λ s. state s ≡ machine.settled (frames_in frames.entry) (shape_in atom.entry)) }
{
    if !frames.wants_atom() {
        return Ok(State::Has(frames, atom));
    }
    let (top, outer) = frames.popped();
    match top {
        Some(frame) => Ok(State::Has(outer, frame.leaving(alloc, atom)?)),
        None => Ok(State::Has(outer, atom)),
    }
}

/// An operand stands there, and this symbol behind it.
fn has<'a>(
    alloc: Global,
    frames: Stack<'a>,
    left: Boxed<Shape<'a>>,
    symbol: Sym<'a>,
) -> Result<Option<State<'a>>, AllocError>
    ensures { IfOk result (λ o. option_map state o ≡ machine.step (machine.Has (frames_in frames.entry) (shape_in left.entry)) (sym symbol.entry)) }
{
    match symbol {
        Sym::Name(x) => applied(alloc, frames, left, Shape::Named(x)),
        Sym::Number(n) => applied(alloc, frames, left, Shape::Numeral(n)),
        Sym::False(at) => applied(alloc, frames, left, Shape::Falsum(at)),
        Sym::Open(at) => opened(frames, left, at),
        Sym::Infix(at, sign) => signed(alloc, frames, left, at, sign),
        Sym::Close => closed(alloc, frames, left),
        _ => Ok(None),
    }
}

/// One argument more, an atom.
fn applied<'a>(
    alloc: Global,
    frames: Stack<'a>,
    f: Boxed<Shape<'a>>,
    atom: Shape<'a>,
) -> Result<Option<State<'a>>, AllocError>
    ensures { IfOk result (λ o. option_map state o ≡ machine.when (grammar.can_apply (shape_in f.entry)) (machine.Has (frames_in frames.entry) (grammar.App (shape_in f.entry) (shape_in atom.entry)))) }
{
    if !f.get().can_apply() {
        return Ok(None);
    }
    let atom = Boxed::new(alloc, atom)?;
    Ok(Some(State::Has(frames, Boxed::new(alloc, Shape::App(f, atom))?)))
}

/// An argument in parentheses begins.
fn opened<'a>(
    frames: Stack<'a>,
    f: Boxed<Shape<'a>>,
    at: u32,
) -> Result<Option<State<'a>>, AllocError>
    ensures { IfOk result (λ o. option_map state o ≡ machine.step (machine.Has (frames_in frames.entry) (shape_in f.entry)) (grammar.Open at)) }
{
    if !f.get().can_apply() {
        return Ok(None);
    }
    let inside = frames.pushed(Frame::Arg(f))?;
    Ok(Some(State::Wants(inside.pushed(Frame::Paren(at))?)))
}

/// A sign behind an operand.
fn signed<'a>(
    alloc: Global,
    frames: Stack<'a>,
    left: Boxed<Shape<'a>>,
    at: u32,
    sign: Op,
) -> Result<Option<State<'a>>, AllocError>
    ensures { IfOk result (λ o. option_map state o ≡ machine.step (machine.Has (frames_in frames.entry) (shape_in left.entry)) (grammar.Sign at (op sign))) }
{
    let Operand { stack, shape } = reduced(alloc, frames, left, Some(sign))?;
    if !takes(stack.wanted(), shape.get(), sign) {
        return Ok(None);
    }
    Ok(Some(State::Wants(stack.pushed(Frame::Binary(at, sign, shape))?)))
}

/// A closing parenthesis behind an operand.
#[tactic(auto, using(crate::proofs::Reading::not_closing))]
fn closed<'a>(
    alloc: Global,
    frames: Stack<'a>,
    inner: Boxed<Shape<'a>>,
) -> Result<Option<State<'a>>, AllocError>
    ensures { IfOk result (λ o. option_map state o ≡ machine.step (machine.Has (frames_in frames.entry) (shape_in inner.entry)) grammar.Close) }
{
    let Operand { stack, shape } = reduced(alloc, frames, inner, None)?;
    let (top, outer) = stack.popped();
    let Some(frame) = top else {
        return Ok(None);
    };
    let Some(at) = frame.paren() else {
        return Ok(None);
    };
    let atom = Boxed::new(alloc, Shape::Paren(at, shape))?;
    Ok(Some(settled(alloc, outer, atom)?))
}

/// A quantifier's names are wanted, and this symbol stands there.
fn binds<'a>(
    alloc: Global,
    frames: Stack<'a>,
    at: u32,
    q: Quantifier,
    names: Heading<'a>,
    symbol: Sym<'a>,
) -> Result<Option<State<'a>>, AllocError>
    ensures { IfOk result (λ o. option_map state o ≡ machine.step (machine.Binds (frames_in frames.entry) at (quantifier q) (heading names.entry)) (sym symbol.entry)) }
{
    match symbol {
        Sym::Comma => match names.binders() {
            Some(all) => Ok(Some(State::Wants(frames.pushed(Frame::Quant(at, q, all))?))),
            None => Ok(None),
        },
        _ => named(alloc, frames, at, q, names, symbol),
    }
}

/// The names go on with this symbol.
fn named<'a>(
    alloc: Global,
    frames: Stack<'a>,
    at: u32,
    q: Quantifier,
    names: Heading<'a>,
    symbol: Sym<'a>,
) -> Result<Option<State<'a>>, AllocError>
    ensures { IfOk result (λ o. option_map state o ≡ option_map (machine.Binds (frames_in frames.entry) at (quantifier q)) (machine.heading_step (heading names.entry) (sym symbol.entry))) }
{
    let mut more = names;
    if !more.step(alloc, symbol)? {
        return Ok(None);
    }
    Ok(Some(State::Binds(frames, at, q, more)))
}

/// An operand in its frames.
#[derive(Drop)]
pub struct Operand<'a> {
    pub stack: Stack<'a>,
    pub shape: Boxed<Shape<'a>>,
}

/// The operand leaves its frames up to one with which the sign goes on, or up to the innermost
/// parenthesis.
fn reduced<'a>(
    alloc: Global,
    stack: Stack<'a>,
    inner: Boxed<Shape<'a>>,
    sign: Option<Op>,
) -> Result<Operand<'a>, AllocError>
    ensures { IfOk result (λ o. operand o ≡ machine.reduced (option_map op sign) (frames_in stack.entry) (shape_in inner.entry)) }
{
    let mut frames = stack;
    let mut shape = inner;
    loop {
        let (top, outer) = frames.popped();
        match top {
            None => return Ok(Operand {
                stack: outer,
                shape,
            }),
            Some(frame) => {
                if stays(&frame, shape.get(), sign) {
                    let stack = outer.pushed(frame)?;
                    return Ok(Operand { stack, shape });
                }
                shape = frame.leaving(alloc, shape)?;
                frames = outer;
            }
        }
    }
}

/// Whether the operand stays in this frame: it is a parenthesis, or the sign goes on in it.
fn stays(frame: &Frame<'_>, operand: &Shape<'_>, sign: Option<Op>) -> bool
    ensures { result ≡ (machine.is_paren (frame_in frame.now) || machine.goes_on (option_map op sign) (machine.place (frame_in frame.now)) (shape_in operand.now)) }
{
    frame.is_paren() || goes_on(sign, frame.place(), operand)
}

/// Whether the sign, where there is one, goes on it.
fn goes_on(sign: Option<Op>, min: u8, left: &Shape<'_>) -> bool
    ensures { result ≡ machine.goes_on (option_map op sign) min (shape_in left.now) }
{
    match sign {
        Some(sign) => takes(min, left, sign),
        None => false,
    }
}

/// Whether the sign goes on this shape in a place that wants at least `min`.
fn takes(min: u8, left: &Shape<'_>, sign: Op) -> bool
    ensures { result ≡ machine.takes min (shape_in left.now) (op sign) }
{
    min <= sign.level() && sign.left_min() <= left.strength() && left.is_closed()
}
