// Rows that state what is to be proved.
use crate::fault::RowFault;
use crate::text::{formula, name};
use pg_arith::Signature;
use pg_syntax::{Binder, Names, Statement};
use sqlite_items::Boxed;
use std::alloc::Global;

/// The binders of a statement so far, and the names of its variables.
#[derive(Drop)]
struct Draft {
    binders: Vec<Binder>,
    names: Names,
}

/// The statement that a text spells: `(a b : ℕ) (h : A) .. : TARGET`, each binder over the variables before it.
pub fn statement(alloc: Global, text: &str, sig: &Signature) -> Result<Boxed<Statement>, RowFault> {
    let (binders, target) = parts(text)?;
    let mut draft = Draft {
        binders: Vec::new(alloc),
        names: Names {
            vars: Vec::new(alloc),
        },
    };
    push_binders(alloc, &mut draft, binders, sig)?;
    let target = formula(alloc, target, &draft.names, sig)?;
    let statement = Statement {
        binders: draft.binders,
        target: target.into_inner(),
    };
    Ok(Boxed::new(alloc, statement)?)
}

/// What stands between the first parenthesis and the one before the colon, and the target behind it.
fn parts(text: &str) -> Result<(&str, &str), RowFault> {
    if let Some(target) = text.strip_prefix(": ") {
        return Ok(("", target));
    }
    let Some((binders, target)) = text.split_once(") : ") else {
        return Err(RowFault::Unread("`) : ` is missing"));
    };
    match binders.strip_prefix('(') {
        Some(binders) => Ok((binders, target)),
        None => Err(RowFault::Unread("a binder begins with `(`")),
    }
}

/// Puts binders behind those of the draft, which stand in the text with `) (` between.
fn push_binders(
    alloc: Global,
    draft: &mut Draft,
    text: &str,
    sig: &Signature,
) -> Result<(), RowFault> {
    let mut rest = text;
    for _ in 0..text.len() {
        let Some((first, more)) = rest.split_once(") (") else {
            return push_binder(alloc, draft, rest, sig);
        };
        push_binder(alloc, draft, first, sig)?;
        rest = more;
    }
    Ok(())
}

/// Puts `a b : ℕ`, or `h : A`, behind the binders of the draft.
fn push_binder(
    alloc: Global,
    draft: &mut Draft,
    text: &str,
    sig: &Signature,
) -> Result<(), RowFault> {
    let Some((heads, what)) = text.split_once(" : ") else {
        return Err(RowFault::Unread("` : ` is missing in a binder"));
    };
    if what == "ℕ" {
        return push_variables(alloc, draft, heads);
    }
    let a = formula(alloc, what, &draft.names, sig)?;
    let own = name(alloc, heads)?;
    draft.binders.push(Binder::Hyp(own, a.into_inner()))?;
    Ok(())
}

/// Puts a variable of each word behind the binders of the draft.
fn push_variables(alloc: Global, draft: &mut Draft, words: &str) -> Result<(), RowFault> {
    for word in words.split_whitespace() {
        draft.binders.push(Binder::Var(name(alloc, word)?))?;
        draft.names.vars.push(Some(name(alloc, word)?))?;
    }
    Ok(())
}
