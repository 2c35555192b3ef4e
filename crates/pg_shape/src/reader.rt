// The shape of tokens, read from the left.
ghost use Rattle.std.specs.Prelude.{map};
ghost use Rattle.pg_base.specs.Tokens.{word};
ghost use Rattle.pg_grammar.specs.Machine as machine;
ghost use Rattle.pg_shape.specs.Symbols.{symbol as symbol_of};
ghost use Rattle.pg_shape.specs.States.{state as state_of};
ghost use Rattle.pg_shape.specs.Answers.{Takes, Ends, Gives, IsRight, shape_answer};

use crate::fault::ShapeFault;
use crate::shape::Shape;
use crate::stack::Stack;
use crate::state::State;
use crate::symbol::symbol;
use pg_base::Token;
use std::alloc::Global;

/// How deep a token may be nested.
const NESTING_LIMIT: u64 = 100;

/// How many tokens there may be.
const TOKEN_LIMIT: usize = 8192;

/// The shape of these tokens, whose end is the byte `end`. Where they have none, or are nested over 100
/// or more than 8,192, it is the first fault: at one token `Expected` before `Deep` before `Long`. Its
/// place is that of the token, or `end`. Want of memory is `OutOfMemory`.
#[tactic(auto, using(crate::proofs::Answering::right))]
pub fn shape_of<'a>(alloc: Global, tokens: &[Token<'a>], end: u32) -> Result<Shape<'a>, ShapeFault>
    ensures reads { Gives (shape_answer end (map word tokens.now)) result }
    ensures right { IsRight end (map word tokens.now) result }
{
    read_shape(alloc, tokens, end)
}

/// The shape of these tokens, or the first fault.
#[tactic(auto, using(crate::proofs::Answering::reads_start, crate::proofs::Answering::turn, crate::proofs::Answering::fault_turn, crate::proofs::Answering::end_turn, crate::proofs::Reading::has_room))]
fn read_shape<'a>(alloc: Global, tokens: &[Token<'a>], end: u32) -> Result<Shape<'a>, ShapeFault>
    ensures { Gives (shape_answer end (map word tokens.now)) result }
{
    let mut state = State::Wants(Stack::new(alloc));
    let mut room = TOKEN_LIMIT;
    for token in tokens {
        state = match taken(alloc, state, token, room) {
            Ok(next) => next,
            Err(fault) => return Err(fault),
        };
        room -= 1;
    }
    finished(alloc, state, end)
}

/// One token more, where there is room for so many.
fn taken<'a>(
    alloc: Global,
    state: State<'a>,
    token: &Token<'a>,
    room: usize,
) -> Result<State<'a>, ShapeFault>
    ensures { Takes (machine.step (state_of state.entry) (symbol_of (word token.now))) room token.now.at result }
{
    let what = state.wanted();
    let next = match state.step(alloc, symbol(token)) {
        Ok(Some(next)) => next,
        Ok(None) => return Err(ShapeFault::Expected { at: token.at, what }),
        Err(_) => return Err(ShapeFault::OutOfMemory),
    };
    if next.depth() > NESTING_LIMIT {
        return Err(ShapeFault::Deep { at: token.at });
    }
    if room == 0 {
        return Err(ShapeFault::Long { at: token.at });
    }
    Ok(next)
}

/// The answer where all tokens have been taken.
fn finished<'a>(alloc: Global, state: State<'a>, end: u32) -> Result<Shape<'a>, ShapeFault>
    ensures { Ends (machine.ended (state_of state.entry)) end result }
{
    let what = state.wanted();
    match state.ended(alloc) {
        Ok(Some(shape)) => Ok(shape.into_inner()),
        Ok(None) => Err(ShapeFault::Expected { at: end, what }),
        Err(_) => Err(ShapeFault::OutOfMemory),
    }
}
