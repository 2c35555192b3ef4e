// The text of a statement.
ghost use Rattle.std.specs.Prelude.{◌≡◌, List, Option, IfOk, None, length, map};
ghost use Rattle.pg_base.specs.Tokens.{Word, word};
ghost use Rattle.pg_script.specs.View.{words};
ghost use Rattle.pg_gametext.specs.Forms.{Taken, BinderText as Binder, binder_named, binder_typed, hypothesis_named, names_taken, binders_taken, statement_told, statement_binders};
ghost use Rattle.pg_forms.specs.View.{told, statement, binder};
ghost use Rattle.pg_forms.specs.Taken.{taken_behind, stuck_at, token_behind};
ghost use Rattle.pg_forms.specs.Binders.{binder_at, turned, closed, with_claim, optional_taken};
ghost use Rattle.pg_forms.specs.Kinds.{fits};

use crate::kind::Kind;
use crate::parts::{BinderText, Span, StatementText, Told};
use crate::take::{
    Left, block_taken, end_at, hypothesis_taken, names_taken, part_taken, place, split_first,
    token_taken,
};
use pg_base::Token;
use std::alloc::{AllocError, Global};

/// What stands where a binder may.
#[derive(Clone, Copy)]
pub(crate) enum Turn<'t, 'a> {
    NoBinder,
    /// A parenthesis without a binder, and the place where none goes on so.
    Stuck(u32),
    /// A binder without its closing parenthesis, and the place where that is missing.
    Unclosed(BinderText<'t, 'a>, u32),
    /// A binder, and the tokens behind it.
    Closed(BinderText<'t, 'a>, &'t [Token<'a>]),
}

/// Binders, and the tokens behind them or the place where they do not go on.
#[derive(Drop)]
pub(crate) struct Binders<'t, 'a> {
    list: Vec<BinderText<'t, 'a>>,
    rest: Result<&'t [Token<'a>], u32>,
}

/// What stands behind the binders.
#[derive(Clone, Copy)]
pub(crate) struct Claim<'t, 'a> {
    target: Option<Span<'t, 'a>>,
    block: Option<Span<'t, 'a>>,
}

/// The statement that these tokens tell, as `statement_told` of `pg_gametext`. The next command begins at the byte `end`.
/// The one error is want of memory.
///
/// `TEXT name binder .. : formula := by block`, where the text, the name and the binders may be left out.
pub fn statement_told<'t, 'a>(
    alloc: Global,
    end: u32,
    tokens: &'t [Token<'a>],
) -> Result<Told<StatementText<'t, 'a>>, AllocError>
    ensures { IfOk result (λ t. statement_told end (words tokens.now) ≡ told statement t) }
{
    let (_, rest) = optional_taken(Kind::Text, tokens);
    let (name, rest) = optional_taken(Kind::Plain, rest);
    let binders = binders_taken(alloc, end, rest)?;
    let claim = claim_told(end, binders.rest);
    Ok(Told {
        value: StatementText {
            name,
            binders: binders.list,
            target: claim.value.target,
            block: claim.value.block,
        },
        stuck: claim.stuck,
    })
}

/// The token of a kind at the front, if there is one, and the tokens behind it.
fn optional_taken<'t, 'a>(
    kind: Kind,
    tokens: &'t [Token<'a>],
) -> (Option<Token<'a>>, &'t [Token<'a>])
    ensures { optional_taken (fits kind) (words tokens.now) ≡ token_behind result }
{
    match split_first(tokens) {
        Some((first, rest)) if kind.fits(&first) => (Some(first), rest),
        _ => (None, tokens),
    }
}

/// Binders, as many as stand.
fn binders_taken<'t, 'a>(
    alloc: Global,
    end: u32,
    tokens: &'t [Token<'a>],
) -> Result<Binders<'t, 'a>, AllocError>
    ensures { IfOk result (λ b. binders_taken (length tokens.now) end (words tokens.now) ≡ taken_behind (map binder b.list.items) b.rest) }
{
    let mut list = Vec::new(alloc);
    let mut left = Left { tokens };
    // Each binder has a token at least.
    for _turn in 0..tokens.len() {
        match binder_taken(end, left.tokens) {
            Turn::Closed(binder, rest) => {
                list.push(binder)?;
                left = Left { tokens: rest };
            }
            Turn::Unclosed(binder, at) => {
                list.push(binder)?;
                return Ok(Binders {
                    list,
                    rest: Err(at),
                });
            }
            Turn::Stuck(at) => {
                return Ok(Binders {
                    list,
                    rest: Err(at),
                });
            }
            Turn::NoBinder => {
                return Ok(Binders {
                    list,
                    rest: Ok(left.tokens),
                });
            }
        }
    }
    Ok(Binders {
        list,
        rest: Ok(left.tokens),
    })
}

/// The binder at the front.
fn binder_taken<'t, 'a>(end: u32, tokens: &'t [Token<'a>]) -> Turn<'t, 'a>
    ensures { (more : List Word → Taken (List Binder)) → binder_at end (words tokens.now) more ≡ turned (words tokens.now) more result }
{
    match token_taken(Kind::Open, end, tokens) {
        Ok((_, behind)) => binder_opened(end, behind),
        Err(_) => Turn::NoBinder,
    }
}

/// The binder behind its opening parenthesis.
fn binder_opened<'t, 'a>(end: u32, tokens: &'t [Token<'a>]) -> Turn<'t, 'a>
    ensures { (ws : List Word) (more : List Word → Taken (List Binder)) → binder_named end (names_taken end (words tokens.now)) more ≡ turned ws more result }
{
    match binder_named(end, tokens) {
        Ok((binder, rest)) => match token_taken(Kind::Close, end, rest) {
            Ok((_, behind)) => Turn::Closed(binder, behind),
            Err(at) => Turn::Unclosed(binder, at),
        },
        Err(at) => Turn::Stuck(at),
    }
}

/// A binder's names and what they are, up to its closing parenthesis.
fn binder_named<'t, 'a>(
    end: u32,
    tokens: &'t [Token<'a>],
) -> Result<(BinderText<'t, 'a>, &'t [Token<'a>]), u32>
    ensures { (more : List Word → Taken (List Binder)) → binder_named end (names_taken end (words tokens.now)) more ≡ closed end more result }
{
    let (names, rest) = names_taken(end, tokens)?;
    let (_, rest) = token_taken(Kind::Colon, end, rest)?;
    binder_typed(end, names, rest)
}

/// What these names are.
fn binder_typed<'t, 'a>(
    end: u32,
    names: &'t [Token<'a>],
    tokens: &'t [Token<'a>],
) -> Result<(BinderText<'t, 'a>, &'t [Token<'a>]), u32>
    ensures { (more : List Word → Taken (List Binder)) → binder_typed end (words names.now) more (words tokens.now) ≡ closed end more result }
{
    match token_taken(Kind::Nat, end, tokens) {
        Ok((_, rest)) => Ok((BinderText::Variables(names), rest)),
        Err(_) => hypothesis_named(end, names, tokens),
    }
}

/// A hypothesis, which has one name.
fn hypothesis_named<'t, 'a>(
    end: u32,
    names: &'t [Token<'a>],
    tokens: &'t [Token<'a>],
) -> Result<(BinderText<'t, 'a>, &'t [Token<'a>]), u32>
    ensures { (more : List Word → Taken (List Binder)) → hypothesis_named end (words names.now) more (words tokens.now) ≡ closed end more result }
{
    match split_first(names) {
        Some((name, others)) if others.is_empty() => {
            let (formula, rest) = hypothesis_taken(end, tokens);
            Ok((BinderText::Hypothesis(name, formula), rest))
        }
        _ => Err(place(tokens, end)),
    }
}

/// The target and the block behind the binders, as far as they go.
fn claim_told<'t, 'a>(end: u32, behind: Result<&'t [Token<'a>], u32>) -> Told<Claim<'t, 'a>>
    ensures { (name : Option Word) (binders : List Binder) → statement_binders end name (taken_behind binders behind.entry) ≡ with_claim name binders result.value result.stuck }
{
    let mut value = Claim {
        target: None,
        block: None,
    };
    let stuck = read_claim(&mut value, end, behind).err();
    Told { value, stuck }
}

fn read_claim<'t, 'a>(
    claim: &mut Claim<'t, 'a>,
    end: u32,
    behind: Result<&'t [Token<'a>], u32>,
) -> Result<(), u32>
    requires target { claim.old.target ≡ None }
    requires block { claim.old.block ≡ None }
    ensures { (name : Option Word) (binders : List Binder) → statement_binders end name (taken_behind binders behind.entry) ≡ with_claim name binders claim.new (stuck_at result) }
{
    let (_, rest) = token_taken(Kind::Colon, end, behind?)?;
    let (target, rest) = part_taken(Kind::Assign, end, rest);
    claim.target = Some(target);
    let (_, rest) = token_taken(Kind::Assign, end, rest)?;
    let (_, rest) = token_taken(Kind::By, end, rest)?;
    let (block, rest) = block_taken(end, rest)?;
    claim.block = Some(block);
    end_at(rest)
}
