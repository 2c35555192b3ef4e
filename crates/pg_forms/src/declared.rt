// The texts of functions, constants and predicates.
ghost use Rattle.std.specs.Prelude.{◌≡◌, ◌≤◌, length, None, option_map};
ghost use Rattle.pg_base.specs.Tokens.{word};
ghost use Rattle.pg_script.specs.View.{words};
ghost use Rattle.pg_gametext.specs.Forms.{are_few, at_most_two, begins_open, parameters_behind, parameters_taken, equation_taken, function_told, constant_told, predicate_told};
ghost use Rattle.pg_forms.specs.View.{told, part, equation as equation_of, function, constant, predicate};
ghost use Rattle.pg_forms.specs.Taken.{taken_behind, as_told, parameters_at_close, parameters_or_none, no_constant, function_of, predicate_of, body_at, body_view};
ghost use Rattle.pg_forms.specs.Equations.{both, equations_at};

use crate::kind::Kind;
use crate::parts::{ConstantText, Equation, FunctionText, PredicateText, Span, Told};
use crate::take::{end_at, names_length, none_of, part_taken, place, split_first, token_taken};
use pg_base::Token;

/// Parameters, and the tokens behind their parenthesis, or the place where that or a parameter is missing.
#[derive(Clone, Copy)]
pub(crate) struct Parameters<'t, 'a> {
    names: &'t [Token<'a>],
    rest: Result<&'t [Token<'a>], u32>,
}

/// An equation as far as it goes, and the tokens behind it, or the place where it does not go on.
#[derive(Clone, Copy)]
pub(crate) struct EquationRead<'t, 'a> {
    equation: Option<Equation<'t, 'a>>,
    rest: Result<&'t [Token<'a>], u32>,
}

/// The equations of a function.
#[derive(Clone, Copy)]
pub(crate) struct Equations<'t, 'a> {
    at_zero: Option<Equation<'t, 'a>>,
    at_succ: Option<Equation<'t, 'a>>,
}

/// The function that these tokens tell, as `function_told` of `pg_gametext`. The next command begins at the byte `end`.
///
/// `f (x .. d) | n0 : l0 = r0 | n1 : l1 = r1`.
pub fn function_told<'t, 'a>(end: u32, tokens: &'t [Token<'a>]) -> Told<FunctionText<'t, 'a>>
    ensures { function_told end (words tokens.now) ≡ told function result }
{
    match token_taken(Kind::FunctionName, end, tokens) {
        Ok((name, rest)) => function_named(end, name, rest),
        Err(at) => Told {
            value: FunctionText {
                name: None,
                params: none_of(tokens),
                at_zero: None,
                at_succ: None,
            },
            stuck: Some(at),
        },
    }
}

/// The constant that these tokens tell, as `constant_told` of `pg_gametext`. The next command begins at the byte `end`.
///
/// `c := term as name`.
pub fn constant_told<'t, 'a>(end: u32, tokens: &'t [Token<'a>]) -> Told<ConstantText<'t, 'a>>
    ensures { constant_told end (words tokens.now) ≡ told constant result }
{
    let mut value = ConstantText {
        name: None,
        body: None,
        equation_name: None,
    };
    let stuck = read_constant(&mut value, end, tokens).err();
    Told { value, stuck }
}

/// The predicate that these tokens tell, as `predicate_told` of `pg_gametext`. The next command begins at the byte `end`.
///
/// `p (x ..) := formula` or `p := formula`.
pub fn predicate_told<'t, 'a>(end: u32, tokens: &'t [Token<'a>]) -> Told<PredicateText<'t, 'a>>
    ensures { predicate_told end (words tokens.now) ≡ told predicate result }
{
    match token_taken(Kind::PredicateName, end, tokens) {
        Ok((name, rest)) => predicate_named(end, name, rest),
        Err(at) => Told {
            value: PredicateText {
                name: None,
                params: none_of(tokens),
                body: None,
            },
            stuck: Some(at),
        },
    }
}

/// The function of this name.
fn function_named<'t, 'a>(
    end: u32,
    name: Token<'a>,
    tokens: &'t [Token<'a>],
) -> Told<FunctionText<'t, 'a>>
    ensures { function_of (word name.entry) end (words tokens.now) ≡ told function result }
{
    let params = parameters_taken(Kind::FunctionSign.fits(&name), end, tokens);
    let equations = equations_told(end, params.rest);
    Told {
        value: FunctionText {
            name: Some(name),
            params: params.names,
            at_zero: equations.value.at_zero,
            at_succ: equations.value.at_succ,
        },
        stuck: equations.stuck,
    }
}

/// The predicate of this name.
fn predicate_named<'t, 'a>(
    end: u32,
    name: Token<'a>,
    tokens: &'t [Token<'a>],
) -> Told<PredicateText<'t, 'a>>
    ensures { predicate_of (word name.entry) end (words tokens.now) ≡ told predicate result }
{
    let params = parameters_or_none(Kind::PredicateSign.fits(&name), end, tokens);
    let body = body_told(end, params.rest);
    Told {
        value: PredicateText {
            name: Some(name),
            params: params.names,
            body: body.value,
        },
        stuck: body.stuck,
    }
}

/// The body behind these parameters, if there is one.
fn body_told<'t, 'a>(end: u32, behind: Result<&'t [Token<'a>], u32>) -> Told<Option<Span<'t, 'a>>>
    ensures { body_at end behind.entry ≡ told (option_map part) result }
{
    match body_of(end, behind) {
        Ok(body) => Told {
            value: Some(body),
            stuck: None,
        },
        Err(at) => Told {
            value: None,
            stuck: Some(at),
        },
    }
}

/// The body behind these parameters, or the place where there is none.
fn body_of<'t, 'a>(end: u32, behind: Result<&'t [Token<'a>], u32>) -> Result<Span<'t, 'a>, u32>
    ensures { body_at end behind.entry ≡ body_view result }
{
    let (_, tokens) = token_taken(Kind::Assign, end, behind?)?;
    Ok(Span { tokens, end })
}

fn read_constant<'t, 'a>(
    text: &mut ConstantText<'t, 'a>,
    end: u32,
    tokens: &'t [Token<'a>],
) -> Result<(), u32>
    requires { constant text.old ≡ no_constant }
    ensures { constant_told end (words tokens.now) ≡ as_told (constant text.new) result }
{
    let (name, rest) = token_taken(Kind::ConstantName, end, tokens)?;
    text.name = Some(name);
    let (_, rest) = token_taken(Kind::Assign, end, rest)?;
    let (body, rest) = part_taken(Kind::As, end, rest);
    text.body = Some(body);
    let (_, rest) = token_taken(Kind::As, end, rest)?;
    let (name, rest) = token_taken(Kind::Plain, end, rest)?;
    text.equation_name = Some(name);
    end_at(rest)
}

// ---- parameters

/// Parameters where a sign is declared or a parenthesis stands, else none.
fn parameters_or_none<'t, 'a>(
    is_sign: bool,
    end: u32,
    tokens: &'t [Token<'a>],
) -> Parameters<'t, 'a>
    ensures { parameters_or_none is_sign end (words tokens.now) ≡ taken_behind (words result.names.now) result.rest }
{
    if is_sign || begins_open(tokens) {
        parameters_taken(is_sign, end, tokens)
    } else {
        Parameters {
            names: none_of(tokens),
            rest: Ok(tokens),
        }
    }
}

fn begins_open(tokens: &[Token<'_>]) -> bool
    ensures { result ≡ begins_open (words tokens.now) }
{
    match split_first(tokens) {
        Some((first, _)) => Kind::Open.fits(&first),
        None => false,
    }
}

/// Names between parentheses, one at least; for a sign two.
fn parameters_taken<'t, 'a>(two: bool, end: u32, tokens: &'t [Token<'a>]) -> Parameters<'t, 'a>
    ensures { parameters_taken two end (words tokens.now) ≡ taken_behind (words result.names.now) result.rest }
{
    match token_taken(Kind::Open, end, tokens) {
        Ok((_, behind)) => parameters_behind(two, end, behind),
        Err(at) => Parameters {
            names: none_of(tokens),
            rest: Err(at),
        },
    }
}

fn parameters_behind<'t, 'a>(two: bool, end: u32, tokens: &'t [Token<'a>]) -> Parameters<'t, 'a>
    ensures { parameters_behind two end (words tokens.now) ≡ taken_behind (words result.names.now) result.rest }
{
    let (all, _) = tokens.split_at(names_length(tokens));
    let names = at_most_two(two, all);
    let (_, behind) = tokens.split_at(names.len());
    Parameters {
        names,
        rest: close_taken(two, end, names, behind),
    }
}

/// These names, of a sign the first two.
fn at_most_two<'t, 'a>(two: bool, names: &'t [Token<'a>]) -> &'t [Token<'a>]
    ensures names { words result.now ≡ at_most_two two (words names.now) }
    ensures within { length result.now ≤ length names.now }
{
    if !two || names.len() <= 2 {
        return names;
    }
    let (front, _) = names.split_at(2);
    front
}

fn are_few(two: bool, names: &[Token<'_>]) -> bool
    ensures { result ≡ are_few two (words names.now) }
{
    names.is_empty() || two && names.len() < 2
}

/// The tokens behind the closing parenthesis, or the place where that or a name is missing.
fn close_taken<'t, 'a>(
    two: bool,
    end: u32,
    names: &[Token<'a>],
    tokens: &'t [Token<'a>],
) -> Result<&'t [Token<'a>], u32>
    ensures { parameters_at_close two end (words names.now) (words tokens.now) ≡ taken_behind (words names.now) result }
{
    if are_few(two, names) {
        return Err(place(tokens, end));
    }
    let (_, behind) = token_taken(Kind::Close, end, tokens)?;
    Ok(behind)
}

// ---- equations

/// Both equations of a function, as far as they go.
fn equations_told<'t, 'a>(end: u32, behind: Result<&'t [Token<'a>], u32>) -> Told<Equations<'t, 'a>>
    ensures { equations_at end behind.entry ≡ told both result }
{
    let mut value = Equations {
        at_zero: None,
        at_succ: None,
    };
    let stuck = read_equations(&mut value, end, behind).err();
    Told { value, stuck }
}

fn read_equations<'t, 'a>(
    equations: &mut Equations<'t, 'a>,
    end: u32,
    behind: Result<&'t [Token<'a>], u32>,
) -> Result<(), u32>
    requires { both equations.old ≡ (None, None) }
    ensures { equations_at end behind.entry ≡ as_told (both equations.new) result }
{
    let first = equation_taken(end, behind?);
    equations.at_zero = first.equation;
    let second = equation_taken(end, first.rest?);
    equations.at_succ = second.equation;
    end_at(second.rest?)
}

/// `| n : l = r`, where r goes on up to the next `|`.
fn equation_taken<'t, 'a>(end: u32, tokens: &'t [Token<'a>]) -> EquationRead<'t, 'a>
    ensures { equation_taken end (words tokens.now) ≡ taken_behind (option_map equation_of result.equation) result.rest }
{
    let mut equation = None;
    let rest = read_equation(&mut equation, end, tokens);
    EquationRead { equation, rest }
}

fn read_equation<'t, 'a>(
    equation: &mut Option<Equation<'t, 'a>>,
    end: u32,
    tokens: &'t [Token<'a>],
) -> Result<&'t [Token<'a>], u32>
    requires { equation.old ≡ None }
    ensures { equation_taken end (words tokens.now) ≡ taken_behind (option_map equation_of equation.new) result }
{
    let (_, rest) = token_taken(Kind::Bar, end, tokens)?;
    let (name, rest) = token_taken(Kind::Plain, end, rest)?;
    *equation = Some(Equation { name, says: None });
    let (_, rest) = token_taken(Kind::Colon, end, rest)?;
    let (says, rest) = part_taken(Kind::Bar, end, rest);
    *equation = Some(Equation {
        name,
        says: Some(says),
    });
    Ok(rest)
}
