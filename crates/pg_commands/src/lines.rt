// The tokens that stand.
ghost use Rattle.std.specs.Prelude.{◌≡◌, IfOk};
ghost use Rattle.pg_script.specs.View.{words};
ghost use Rattle.pg_gametext.specs.Commands.{standing};

use crate::kind::begins_passed_line;
use pg_base::Token;
use std::alloc::{AllocError, Global};

/// The tokens of a text without the lines that are passed over, in their order. Such a line goes on up to the next token
/// that is first of its line (docs/GAME-TEXT.md, "Lines that are passed over"). Takes time linear in the tokens.
pub fn standing<'a>(alloc: Global, tokens: &[Token<'a>]) -> Result<Vec<Token<'a>>, AllocError>
    ensures stands { IfOk result (λ stand. words stand.items ≡ standing (words tokens.now)) }
{
    let mut stand = Vec::new(alloc);
    let mut passed = false;
    for token in tokens {
        passed = begins_passed_line(token) || (passed && !token.first);
        if !passed {
            stand.push(*token)?;
        }
    }
    Ok(stand)
}
