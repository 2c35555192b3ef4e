// Rows that declare.
use crate::fault::RowFault;
use crate::reply::Reply;
use crate::text::{formula, name, term};
use pg_arith::{DeclareFault, Signature};
use pg_syntax::Names;
use pg_terms::Name;
use std::alloc::Global;

/// How many parameters a declaration of a row may have: more than any takes.
const MOST_PARAMETERS: usize = 1_000;

/// How many functions, or predicates, rows may declare.
const MOST_DECLARED: u16 = 1_000;

/// Answers a row that declares: nothing, or why it is refused.
pub fn row(
    alloc: Global,
    sig: &mut Signature,
    word: &str,
    rest: &str,
    reply: &mut Reply,
) -> Result<(), RowFault> {
    let Some((heads, body)) = rest.split_once(" : ") else {
        return Err(RowFault::Unread("` : ` is missing"));
    };
    let heads = heads_of(alloc, heads)?;
    let made = match word {
        "function" => function(alloc, sig, heads.as_slice(), body)?,
        "constant" => constant(alloc, sig, heads.as_slice(), body)?,
        _ => predicate(alloc, sig, heads.as_slice(), body)?,
    };
    match made {
        Ok(_) => Ok(()),
        Err(fault) => {
            let line = format!(in alloc; "refused: {fault}")?;
            Ok(reply.line(line.as_str())?)
        }
    }
}

/// The words before the colon.
fn heads_of<'a>(alloc: Global, text: &'a str) -> Result<Vec<&'a str>, RowFault> {
    let mut words = Vec::new(alloc);
    for word in text.split_whitespace() {
        words.push(word)?;
    }
    Ok(words)
}

/// `NAME ZERO SUCC VALUE PARAM .. : BASE ; STEP`. The base is over the parameters but the last, the step over all of them and
/// the value at the predecessor.
fn function(
    alloc: Global,
    sig: &mut Signature,
    heads: &[&str],
    body: &str,
) -> Result<Result<u16, DeclareFault>, RowFault> {
    let [own, zero, succ, value, params @ ..] = heads else {
        return Err(RowFault::Unread("a function wants four names and its parameters"));
    };
    let Some((last, front)) = params.split_last() else {
        return Err(RowFault::Unread("a function wants a parameter"));
    };
    let Some((base, step)) = body.split_once(" ; ") else {
        return Err(RowFault::Unread("` ; ` is missing"));
    };
    let mut over = variables(alloc, front)?;
    let base = term(alloc, base, &over, sig)?;
    over.vars.push(Some(name(alloc, last)?))?;
    over.vars.push(Some(name(alloc, value)?))?;
    let step = term(alloc, step, &over, sig)?;
    let named = names(alloc, params)?;
    let count = named.len();
    if count == 0 || count > MOST_PARAMETERS || sig.function_count() >= MOST_DECLARED {
        return Err(RowFault::Unread("there are too many parameters, or functions"));
    }
    let arity = count as u16;
    let own = name(alloc, own)?;
    let zero = name(alloc, zero)?;
    let succ = name(alloc, succ)?;
    Ok(sig.declare_function(
        alloc,
        own,
        arity,
        named,
        base.into_inner(),
        step.into_inner(),
        zero,
        succ,
    ))
}

/// `NAME EQUATION : TERM`.
fn constant(
    alloc: Global,
    sig: &mut Signature,
    heads: &[&str],
    body: &str,
) -> Result<Result<u16, DeclareFault>, RowFault> {
    let [own, equation] = heads else {
        return Err(RowFault::Unread("a constant wants two names"));
    };
    if sig.function_count() >= MOST_DECLARED {
        return Err(RowFault::Unread("there are too many functions"));
    }
    let over = Names {
        vars: Vec::new(alloc),
    };
    let body = term(alloc, body, &over, sig)?;
    let own = name(alloc, own)?;
    let equation = name(alloc, equation)?;
    Ok(sig.declare_constant(alloc, own, body.into_inner(), equation))
}

/// `NAME PARAM .. : FORMULA`.
fn predicate(
    alloc: Global,
    sig: &mut Signature,
    heads: &[&str],
    body: &str,
) -> Result<Result<u16, DeclareFault>, RowFault> {
    let [own, params @ ..] = heads else {
        return Err(RowFault::Unread("a predicate wants a name"));
    };
    if params.len() > MOST_PARAMETERS || sig.predicate_count() >= MOST_DECLARED {
        return Err(RowFault::Unread("there are too many parameters, or predicates"));
    }
    let over = variables(alloc, params)?;
    let body = formula(alloc, body, &over, sig)?;
    let own = name(alloc, own)?;
    Ok(sig.declare_predicate(alloc, own, params.len() as u16, body.into_inner()))
}

/// These words as the names of variables.
fn variables(alloc: Global, words: &[&str]) -> Result<Names, RowFault> {
    let mut vars = Vec::new(alloc);
    for word in words {
        vars.push(Some(name(alloc, word)?))?;
    }
    Ok(Names { vars })
}

/// These words as names.
fn names(alloc: Global, words: &[&str]) -> Result<Vec<Name>, RowFault> {
    let mut names = Vec::new(alloc);
    for word in words {
        names.push(name(alloc, word)?)?;
    }
    Ok(names)
}
