// Frames are opened and closed at the inner end.
ghost use Rattle.std.specs.Prelude.{◌≡◌, ◌+◌, ◌^◌, ◌<◌, ◌≤◌, List, [], ◌∷◌, length, IfOk, MatchOption};
ghost use Rattle.pg_grammar.specs.Machine as machine;
ghost use Rattle.pg_shape.specs.Frames.{frame, want_atom};
ghost use Rattle.pg_shape.specs.States.{stack};

use crate::frame::Frame;
use crate::shape::Op;
use crate::stack::Stack;
use pg_base::Wanted;
use sqlite_items::Items;
use std::alloc::{AllocError, Global};

impl<'a> Stack<'a> {
    /// No frame.
    pub fn new(alloc: Global) -> Stack<'a>
        ensures { stack result ≡ [] }
    {
        Stack {
            frames: Items::new(alloc),
            nesting: 0,
        }
    }

    /// One frame more inside. It fails only for want of memory.
    pub fn pushed(self, inner: Frame<'a>) -> Result<Stack<'a>, AllocError>
        ensures { IfOk result (λ s. stack s ≡ frame inner.entry ∷ stack self.entry) }
    {
        let Stack {
            mut frames,
            nesting,
        } = self;
        fits(&frames);
        let more = nests(&inner);
        frames.push(inner)?;
        Ok(Stack {
            frames,
            nesting: nesting + more,
        })
    }

    /// The innermost frame, if there is one, and the stack without it.
    pub fn popped(self) -> (Option<Frame<'a>>, Stack<'a>)
        ensures { MatchOption result.0 ((stack self.entry ≡ []) × (stack result.1 ≡ [])) (λ f. stack self.entry ≡ frame f ∷ stack result.1) }
    {
        let Stack {
            mut frames,
            nesting,
        } = self;
        match frames.pop() {
            None => (None, Stack { frames, nesting }),
            Some(inner) => {
                let less = nests(&inner);
                (
                    Some(inner),
                    Stack {
                        frames,
                        nesting: nesting - less,
                    },
                )
            }
        }
    }

    /// How strong the operand in the innermost frame is at least.
    pub fn wanted(&self) -> u8
        ensures { result ≡ machine.wanted (stack self.now) }
    {
        match self.frames.as_slice().last() {
            Some(inner) => inner.place(),
            None => 0,
        }
    }

    /// Whether the innermost frame wants an atom, which leaves it at once.
    pub fn wants_atom(&self) -> bool
        ensures { result ≡ want_atom (stack self.now) }
    {
        match self.frames.as_slice().last() {
            Some(inner) => inner.wants_atom(),
            None => false,
        }
    }

    /// What the operand in the innermost frame is. Outside all frames stands a term or a formula, and
    /// a term can begin either.
    pub fn operand(&self) -> Wanted {
        match self.frames.as_slice().last() {
            Some(inner) => inner.operand(),
            None => Wanted::Term,
        }
    }

    /// How deep an operand in these frames is nested.
    pub fn nesting(&self) -> u64
        ensures nested { result ≡ machine.nesting (stack self.now) }
        ensures small { result + 2 < 2 ^ 64 }
    {
        fits(&self.frames);
        self.nesting
    }

    /// How deep the symbol that opened the innermost frame is nested.
    pub fn opening_depth(&self) -> u64
        ensures { result ≡ machine.opening_depth (stack self.now) }
    {
        match self.frames.as_slice().last() {
            Some(Frame::Quant(..)) => self.nesting,
            Some(inner) => self.nesting - nests(inner),
            None => 0,
        }
    }
}

/// Frames are in memory, so their number with two more fits in 64 bits.
fn fits(frames: &Items<Frame<'_>>)
    ensures { length frames.now + 2 < 2 ^ 64 }
{
    let _more = frames.as_slice().len() + 2;
}

/// By how much a frame nests its operand: a parenthesis, a quantifier, `¬`, and a sign that goes to the right nest it.
fn nests(inner: &Frame<'_>) -> u64
    ensures counts { (fs : List machine.Frame) → machine.nesting (frame inner.now ∷ fs) ≡ machine.nesting fs + result }
    ensures small { result ≤ 1 }
{
    match inner {
        Frame::Paren(_) | Frame::Quant(..) | Frame::Neg(_) => 1,
        Frame::Next(_) | Frame::Arg(_) => 0,
        Frame::Binary(_, op, _) => match op {
            Op::Implies | Op::Or | Op::And | Op::Power => 1,
            _ => 0,
        },
    }
}
