// Samples.
ghost use Rattle.std.specs.Prelude.{◌≡◌, if◌then◌else◌};
ghost use Rattle.pg_base.specs.Spans.{AreTokens};
ghost use Rattle.pg_script.specs.View.{words};
ghost use Rattle.pg_gametext.specs.Faults.{Limit, Nesting, Blocks};
ghost use Rattle.pg_gametext.specs.Checks.{opens_at};
ghost use Rattle.pg_forms.specs.View.{part};
ghost use Rattle.pg_faults.specs.View.{kind};
ghost use Rattle.pg_hints.specs.Samples.{IsSample};

use crate::tokens::{is_sorry, opens_at, span};
use pg_base::Token;
use pg_faults::{Fault, Kind, LimitName};
use pg_forms::Span;
use pg_script::{Script, ScriptFault, read_items};
use std::alloc::Global;

/// Why a block gives no sample.
#[derive(Clone, Copy, Debug, PartialEq, Eq)]
pub enum SampleFault {
    /// The block is no script.
    Fault(Fault),
    /// There is no memory for the script.
    OutOfMemory,
}

/// The script of a block, or none where the block is `sorry` (docs/GAME-TEXT.md, "Samples").
///
/// The fault is the first of the block: `Expected` where no script goes on, the bytes from the first token to the end of
/// the last where these are over 16,384, the 201st step, the 101st parenthesis within others, or the 17th block within others.
pub fn sample<'a>(alloc: Global, block: Span<'_, 'a>) -> Result<Option<Script<'a>>, SampleFault>
    requires { AreTokens block.end (words block.tokens.now) }
    ensures { IsSample (part block.entry) result }
{
    if is_sorry(block) {
        return Ok(None);
    }
    match read_items(alloc, block.tokens, block.end, true) {
        Ok(script) => Ok(Some(script)),
        Err(ScriptFault::OutOfMemory) => Err(SampleFault::OutOfMemory),
        Err(ScriptFault::Lex(_)) => unreachable!(),
        Err(ScriptFault::Expected { at, what }) => Err(SampleFault::Fault(Fault {
            at,
            kind: Kind::Expected(what),
        })),
        Err(ScriptFault::TooLong { at }) => Err(SampleFault::Fault(Fault {
            at,
            kind: Kind::Limit(LimitName::ScriptBytes, span(block.tokens, block.end)),
        })),
        Err(ScriptFault::TooMany { at }) => Err(SampleFault::Fault(Fault {
            at,
            kind: Kind::Limit(LimitName::Steps, 201),
        })),
        Err(ScriptFault::Deep { at }) => Err(SampleFault::Fault(Fault {
            at,
            kind: deep(at, block.tokens),
        })),
    }
}

/// What is passed where a script is nested too deep: parentheses or blocks, by what stands there.
fn deep(at: u32, tokens: &[Token<'_>]) -> Kind
    ensures { kind result ≡ (if opens_at at (words tokens.now) then Limit Nesting 101 else Limit Blocks 17) }
{
    if opens_at(at, tokens) {
        Kind::Limit(LimitName::Nesting, 101)
    } else {
        Kind::Limit(LimitName::Blocks, 17)
    }
}
