// The words of parameters, and names that differ.
ghost use Rattle.std.specs.Prelude.{◌≡◌, ◌≤◌, ◌++◌, IfOk, map, reverse, true, suc, take, length};
ghost use Rattle.pg_base.specs.Tokens.{word};
ghost use Rattle.pg_logic.specs.Declarations.{arity_limit};
ghost use Rattle.pg_script.specs.View.{words};
ghost use Rattle.pg_faults.specs.View.{found, fault, limit as limit_of};
ghost use Rattle.pg_gametext.specs.Faults as text;
ghost use Rattle.pg_gametext.specs.Faults.{least, one_over, Arity};
ghost use Rattle.pg_gametext.specs.Before.{bound_name, first_place};
ghost use Rattle.pg_gametext.specs.Checks.{clash_fault, differing_faults, parameter_faults};
ghost use Rattle.pg_named.specs.View.{given};
ghost use Rattle.pg_named.specs.Found.{kept};
ghost use Rattle.pg_named.specs.Bound.{Rises, stands_behind, up_to, over, place_of, left, room_behind};

use crate::given::Given;
use crate::search::{clash, first_place, sooner_place, with_entry};
use pg_base::Token;
use pg_faults::{Fault, Kind, LimitName, sooner};
use std::alloc::{AllocError, Global};

/// How many parameters a function or a predicate may have.
const ARITY_LIMIT: usize = 4;

/// The first fault of the parameters of a function or a predicate, whose tokens stand in order of place: each name
/// differs from those before it, and there are at most four (`parameter_faults` and `one_over Arity` of `pg_gametext`).
/// The one error is want of memory.
pub fn parameters_fault(alloc: Global, params: &[Token<'_>]) -> Result<Option<Fault>, AllocError>
    requires { Rises (words params.now) }
    ensures { IfOk result (λ f. found f ≡ least (parameter_faults (words params.now) ++ one_over Arity arity_limit (words params.now))) }
{
    let over = words_left(LimitName::Arity, ARITY_LIMIT, ARITY_LIMIT, params).err();
    let mut front = Vec::new(alloc);
    add_up_to(&mut front, place_of(over), params)?;
    let declared = Vec::new(alloc);
    Ok(sooner(first_clash(&declared, &front), over))
}

/// The name of a variable, a hypothesis or a parameter.
pub(crate) fn bound_name<'a>(token: &Token<'a>) -> Given<'a>
    ensures { given result ≡ bound_name (word token.now) }
{
    Given {
        name: token.text,
        at: token.at,
        declared: false,
    }
}

/// The least place of a name among these words.
fn first_among(name: &str, tokens: &[Token<'_>]) -> Option<u32>
    ensures { result ≡ first_place name.now (map bound_name (words tokens.now)) }
{
    let mut first = None;
    for token in tokens {
        first = with_entry(name, false, &bound_name(token), first);
    }
    first
}

/// The fault of the word that stands behind so many others, where it has a declared name or one of theirs.
fn clash_at(
    table: &[Given<'_>],
    count: usize,
    tokens: &[Token<'_>],
    token: &Token<'_>,
) -> Option<Fault>
    requires { count ≤ length tokens.now }
    ensures { found result ≡ least (clash_fault (word token.now).at (first_place (word token.now).text (over (kept true (map given (reverse table.now))) (map bound_name (take count (words tokens.now)))))) }
{
    let (earlier, _) = tokens.split_at(count);
    let among = first_among(token.text, earlier);
    let declared = first_place(token.text, true, table);
    clash(token.at, sooner_place(among, declared))
}

/// The first of these words that has a declared name of the table or the name of a word before it.
pub(crate) fn first_clash(table: &[Given<'_>], tokens: &[Token<'_>]) -> Option<Fault>
    requires { Rises (words tokens.now) }
    ensures { found result ≡ least (differing_faults (kept true (map given (reverse table.now))) (map bound_name (words tokens.now))) }
{
    for (count, token) in tokens.iter().enumerate() {
        match clash_at(table, count, tokens, token) {
            Some(fault) => return Some(fault),
            None => {}
        }
    }
    None
}

fn stands_behind(last: Option<u32>, token: &Token<'_>) -> bool
    ensures { result ≡ stands_behind last (word token.now) }
{
    match last {
        Some(at) => at < token.at,
        None => false,
    }
}

/// Adds the words that do not stand behind the last place.
pub(crate) fn add_up_to<'a>(
    kept: &mut Vec<Token<'a>>,
    last: Option<u32>,
    tokens: &[Token<'a>],
) -> Result<(), AllocError>
    ensures { IfOk result (λ u. words kept.new.items ≡ words kept.old.items ++ up_to last (words tokens.now)) }
{
    for token in tokens {
        if !stands_behind(last, token) {
            kept.push(*token)?;
        }
    }
    Ok(())
}

/// The place of a fault that there may be.
pub(crate) fn place_of(fault: Option<Fault>) -> Option<u32>
    ensures { result ≡ place_of (found fault) }
{
    let fault = fault?;
    Some(fault.at)
}

/// Where there is room for so many words, how much these leave, or the fault of the first that is too many.
pub(crate) fn words_left(
    what: LimitName,
    limit: usize,
    room: usize,
    tokens: &[Token<'_>],
) -> Result<usize, Fault>
    requires { limit ≤ 64 }
    ensures { left result ≡ room_behind (limit_of what) limit room (words tokens.now) }
{
    match tokens.get(room) {
        Some(token) => Err(too_many(what, limit, token)),
        None => Ok(room - tokens.len()),
    }
}

/// The fault of a word that is too many.
fn too_many(what: LimitName, limit: usize, token: &Token<'_>) -> Fault
    requires { limit ≤ 64 }
    ensures { fault result ≡ text.fault (word token.now).at (text.Limit (limit_of what) (suc limit)) }
{
    Fault {
        at: token.at,
        kind: Kind::Limit(what, limit as u32 + 1),
    }
}
