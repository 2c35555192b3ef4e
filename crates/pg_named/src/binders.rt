// The words of binders.
ghost use Rattle.std.specs.Prelude.{◌≡◌, ◌++◌, [], ◌∷◌, IfOk, map, reverse, true};
ghost use Rattle.pg_base.specs.Tokens.{word};
ghost use Rattle.pg_script.specs.View.{words};
ghost use Rattle.pg_forms.specs.View.{binder as binder_of};
ghost use Rattle.pg_faults.specs.View.{found};
ghost use Rattle.pg_gametext.specs.Faults.{least, one_over, variable_limit, hypothesis_limit, Variables, Hypotheses};
ghost use Rattle.pg_gametext.specs.Before.{bound_name, binder_words, all_binder_words};
ghost use Rattle.pg_gametext.specs.Checks.{differing_faults, variable_words, hypothesis_words};
ghost use Rattle.pg_named.specs.View.{given};
ghost use Rattle.pg_named.specs.Found.{kept};
ghost use Rattle.pg_named.specs.Bound.{Rises, up_to, left, room_behind};

use crate::bound::{add_up_to, bound_name, first_clash, place_of, words_left};
use crate::given::Given;
use pg_base::Token;
use pg_faults::{Fault, LimitName, sooner};
use pg_forms::BinderText;
use std::alloc::{AllocError, Global};

/// How many variables a statement may have.
const VARIABLE_LIMIT: usize = 64;

/// How many hypotheses a statement may have.
const HYPOTHESIS_LIMIT: usize = 64;

/// The first fault of the words of binders, where these are the names before them: none has a declared name or the name of a
/// word before it, and there are at most 64 variables and 64 hypotheses.
///
/// Only the words up to the first that is too many are compared, so the time is linear in the others.
pub(crate) fn binders_fault(
    alloc: Global,
    table: &[Given<'_>],
    binders: &[BinderText<'_, '_>],
) -> Result<Option<Fault>, AllocError>
    requires { Rises (all_binder_words (map binder_of binders.now)) }
    ensures { IfOk result (λ f. found f ≡ least (differing_faults (kept true (map given (reverse table.now))) (map bound_name (all_binder_words (map binder_of binders.now))) ++ (one_over Variables variable_limit (variable_words (map binder_of binders.now)) ++ one_over Hypotheses hypothesis_limit (hypothesis_words (map binder_of binders.now))))) }
{
    let over = sooner(variables_over(binders), hypotheses_over(binders));
    let front = front_of(alloc, place_of(over), binders)?;
    Ok(sooner(first_clash(table, &front), over))
}

/// The fault of the first variable that is too many.
fn variables_over(binders: &[BinderText<'_, '_>]) -> Option<Fault>
    ensures { found result ≡ least (one_over Variables variable_limit (variable_words (map binder_of binders.now))) }
{
    let mut room = VARIABLE_LIMIT;
    for binder in binders {
        match variables_left(room, binder) {
            Ok(less) => room = less,
            Err(fault) => return Some(fault),
        }
    }
    None
}

fn variables_left(room: usize, binder: &BinderText<'_, '_>) -> Result<usize, Fault>
    ensures { left result ≡ room_behind Variables variable_limit room (variable_words (binder_of binder.now ∷ [])) }
{
    match binder {
        BinderText::Variables(tokens) => words_left(
            LimitName::Variables,
            VARIABLE_LIMIT,
            room,
            tokens,
        ),
        BinderText::Hypothesis(_, _) => Ok(room),
    }
}

/// The fault of the first hypothesis that is too many.
fn hypotheses_over(binders: &[BinderText<'_, '_>]) -> Option<Fault>
    ensures { found result ≡ least (one_over Hypotheses hypothesis_limit (hypothesis_words (map binder_of binders.now))) }
{
    let mut room = HYPOTHESIS_LIMIT;
    for binder in binders {
        match hypotheses_left(room, binder) {
            Ok(less) => room = less,
            Err(fault) => return Some(fault),
        }
    }
    None
}

fn hypotheses_left(room: usize, binder: &BinderText<'_, '_>) -> Result<usize, Fault>
    ensures { left result ≡ room_behind Hypotheses hypothesis_limit room (hypothesis_words (binder_of binder.now ∷ [])) }
{
    match binder {
        BinderText::Variables(_) => Ok(room),
        BinderText::Hypothesis(name, _) => words_left(
            LimitName::Hypotheses,
            HYPOTHESIS_LIMIT,
            room,
            &[*name],
        ),
    }
}

/// The words that do not stand behind the last place.
fn front_of<'a>(
    alloc: Global,
    last: Option<u32>,
    binders: &[BinderText<'_, 'a>],
) -> Result<Vec<Token<'a>>, AllocError>
    ensures { IfOk result (λ v. words v.items ≡ up_to last (all_binder_words (map binder_of binders.now))) }
{
    let mut front = Vec::new(alloc);
    for binder in binders {
        add_front(&mut front, last, binder)?;
    }
    Ok(front)
}

fn add_front<'a>(
    front: &mut Vec<Token<'a>>,
    last: Option<u32>,
    binder: &BinderText<'_, 'a>,
) -> Result<(), AllocError>
    ensures { IfOk result (λ u. words front.new.items ≡ words front.old.items ++ up_to last (binder_words (binder_of binder.now))) }
{
    match binder {
        BinderText::Variables(tokens) => add_up_to(front, last, tokens),
        BinderText::Hypothesis(name, _) => add_up_to(front, last, &[*name]),
    }
}

/// Puts the names of binders nearest, in their order.
pub(crate) fn add_binders<'a>(
    bound: &mut Vec<Given<'a>>,
    binders: &[BinderText<'_, 'a>],
) -> Result<(), AllocError>
    ensures { IfOk result (λ u. map given (reverse bound.new.items) ≡ map bound_name (all_binder_words (map binder_of binders.now)) ++ map given (reverse bound.old.items)) }
{
    for index in (0..binders.len()).rev() {
        add_binder(bound, &binders[index])?;
    }
    Ok(())
}

fn add_binder<'a>(bound: &mut Vec<Given<'a>>, binder: &BinderText<'_, 'a>) -> Result<(), AllocError>
    ensures { IfOk result (λ u. map given (reverse bound.new.items) ≡ map bound_name (binder_words (binder_of binder.now)) ++ map given (reverse bound.old.items)) }
{
    match binder {
        BinderText::Variables(tokens) => add_words(bound, tokens),
        BinderText::Hypothesis(name, _) => {
            bound.push(bound_name(name))?;
            Ok(())
        }
    }
}

fn add_words<'a>(bound: &mut Vec<Given<'a>>, tokens: &[Token<'a>]) -> Result<(), AllocError>
    ensures { IfOk result (λ u. map given (reverse bound.new.items) ≡ map bound_name (words tokens.now) ++ map given (reverse bound.old.items)) }
{
    for index in (0..tokens.len()).rev() {
        bound.push(bound_name(&tokens[index]))?;
    }
    Ok(())
}
