// What a text token means.
ghost use Rattle.std.specs.Prelude.{ℕ, ◌≡◌, ◌≤◌, ◌&&◌, false, List, ◌∷◌, ◌++◌, length, IfOk, string_bytes};
ghost use Rattle.std.specs.Str.{chars, encode_utf8_all};
ghost use Rattle.pg_base.specs.Characters.{is_blank};
ghost use Rattle.pg_base.specs.Meaning.{escaped, decoded, meaning, spelling};

use crate::text::{is_blank, split_first};
use std::alloc::{AllocError, Global};

/// What the text of a text token means: `\\`, `\"`, `\n`, `\t` and `\{` stand for a backslash, a
/// quote, a line feed, a tab and `{`; a `\` before a line feed goes away with it and the blanks that
/// follow; a `\` before another character stays, with the character. It fails only for want of memory.
pub fn decoded(alloc: Global, text: &str) -> Result<String, AllocError>
    ensures exact { IfOk result (λ s. string_bytes s ≡ encode_utf8_all (meaning (chars text.now))) }
    ensures spelled { (t : List ℕ) → chars text.now ≡ spelling t → IfOk result (λ s. string_bytes s ≡ encode_utf8_all t) }
{
    let mut meant = String::new(alloc);
    let mut passing = false;
    let mut rest = text;
    while let Some((c, after)) = split_first(rest) {
        if is_passed(passing, c) {
            rest = after;
        } else if c == '\\' {
            (passing, rest) = push_behind(&mut meant, after)?;
        } else {
            meant.push(c)?;
            passing = false;
            rest = after;
        }
    }
    Ok(meant)
}

/// Whether the character goes away.
fn is_passed(passing: bool, c: char) -> bool
    ensures { result ≡ (passing && is_blank c) }
{
    passing && is_blank(c)
}

/// What stands behind a `\` goes on the text. It gives whether blanks are passed over next, and the rest.
fn push_behind<'a>(text: &mut String, behind: &'a str) -> Result<(bool, &'a str), AllocError>
    ensures meant { IfOk result (λ r. string_bytes text.new ++ encode_utf8_all (decoded r.0 (chars r.1.now))
        ≡ string_bytes text.old ++ encode_utf8_all (decoded false (92 ∷ chars behind.now))) }
    ensures shorter { IfOk result (λ r. length r.1.now ≤ length behind.now) }
{
    match split_first(behind) {
        None => {
            text.push('\\')?;
            Ok((false, behind))
        }
        Some((c, rest)) if c == '\n' => Ok((true, rest)),
        Some((c, rest)) => {
            push_escaped(text, c)?;
            Ok((false, rest))
        }
    }
}

/// What a `\` and this character stand for goes on the text.
fn push_escaped(text: &mut String, c: char) -> Result<(), AllocError>
    ensures { IfOk result (λ _. string_bytes text.new ≡ string_bytes text.old ++ encode_utf8_all (escaped c)) }
{
    match c {
        '\\' | '"' | '{' => text.push(c),
        'n' => text.push('\n'),
        't' => text.push('\t'),
        _ => {
            text.push('\\')?;
            text.push(c)
        }
    }
}
