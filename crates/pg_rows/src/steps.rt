// Proofs as they stand in rows: step by step, each behind those of its premises.
use crate::fault::RowFault;
use crate::row::first_word;
use crate::tree::{formula, term};
use crate::words::Words;
use pg_kernel::Proof;
use sqlite_items::{Boxed, Items};
use std::alloc::Global;

type Made = Result<Boxed<Proof>, RowFault>;

type Stack = Items<Boxed<Proof>>;

/// The proof that steps make, with ` ; ` between them. Each step takes as many of the proofs before it as its rule has
/// premises, and one is left at the end.
pub fn proof(alloc: Global, steps: &str) -> Made {
    let mut stack = Items::new(alloc);
    let mut rest = steps;
    for _ in 0..steps.len() {
        let Some((step, more)) = rest.split_once(" ; ") else {
            break;
        };
        push_step(alloc, &mut stack, step)?;
        rest = more;
    }
    push_step(alloc, &mut stack, rest)?;
    let proof = pop(&mut stack)?;
    if stack.is_empty() {
        return Ok(proof);
    }
    Err(RowFault::Unread("the steps make more than one proof"))
}

/// One step more.
fn push_step(alloc: Global, stack: &mut Stack, step: &str) -> Result<(), RowFault> {
    let (rule, fields) = first_word(step);
    let proof = node(alloc, stack, rule, &mut Words::new(fields))?;
    Ok(stack.push(proof)?)
}

/// The proof of the last premise that is not taken yet.
fn pop(stack: &mut Stack) -> Made {
    match stack.pop() {
        Some(proof) => Ok(proof),
        None => Err(RowFault::Unread("a step lacks a premise")),
    }
}

/// The proof of a step.
fn node(alloc: Global, stack: &mut Stack, rule: &str, fields: &mut Words<'_>) -> Made {
    match rule {
        "hyp" | "thm" => named(alloc, rule, fields.short_number()?),
        "lem" => boxed(alloc, Proof::Lem),
        "refl" => boxed(alloc, Proof::Refl),
        "orl" | "orr" | "impi" | "fale" | "alli" | "predi" => one(alloc, rule, pop(stack)?),
        "andl" | "andr" | "prede" => with_formula(alloc, stack, rule, fields),
        "andi" => conjunction(alloc, stack),
        "ore" => cases(alloc, stack, fields),
        "impe" | "exe" => elimination(alloc, stack, rule, fields),
        "alle" => instance(alloc, stack, fields),
        "exi" => witness(alloc, stack, fields),
        "repl" => replacement(alloc, stack, fields),
        "ind" => induction(alloc, stack, fields),
        _ => Err(RowFault::Unread("no rule has this word")),
    }
}

fn boxed(alloc: Global, proof: Proof) -> Made {
    Ok(Boxed::new(alloc, proof)?)
}

/// A hypothesis or a theorem.
fn named(alloc: Global, rule: &str, number: u32) -> Made {
    if rule == "hyp" {
        boxed(alloc, Proof::Hyp(number))
    } else {
        boxed(alloc, Proof::Thm(number))
    }
}

/// A rule of one premise and no field.
fn one(alloc: Global, rule: &str, p: Boxed<Proof>) -> Made {
    let proof = match rule {
        "orl" => Proof::Orl(p),
        "orr" => Proof::Orr(p),
        "impi" => Proof::Impi(p),
        "fale" => Proof::Fale(p),
        "alli" => Proof::Alli(p),
        _ => Proof::Predi(p),
    };
    boxed(alloc, proof)
}

/// A rule of one premise and a formula.
fn with_formula(alloc: Global, stack: &mut Stack, rule: &str, fields: &mut Words<'_>) -> Made {
    let a = formula(alloc, fields.next()?)?;
    let p = pop(stack)?;
    let proof = match rule {
        "andl" => Proof::Andl(a.into_inner(), p),
        "andr" => Proof::Andr(a.into_inner(), p),
        _ => Proof::Prede(a.into_inner(), p),
    };
    boxed(alloc, proof)
}

/// The proofs of two premises.
fn two(stack: &mut Stack) -> Result<(Boxed<Proof>, Boxed<Proof>), RowFault> {
    let q = pop(stack)?;
    let p = pop(stack)?;
    Ok((p, q))
}

fn conjunction(alloc: Global, stack: &mut Stack) -> Made {
    let (p, q) = two(stack)?;
    boxed(alloc, Proof::Andi(p, q))
}

fn elimination(alloc: Global, stack: &mut Stack, rule: &str, fields: &mut Words<'_>) -> Made {
    let a = formula(alloc, fields.next()?)?;
    let (p, q) = two(stack)?;
    let proof = if rule == "impe" {
        Proof::Impe(a.into_inner(), p, q)
    } else {
        Proof::Exe(a.into_inner(), p, q)
    };
    boxed(alloc, proof)
}

fn cases(alloc: Global, stack: &mut Stack, fields: &mut Words<'_>) -> Made {
    let a = formula(alloc, fields.next()?)?;
    let b = formula(alloc, fields.next()?)?;
    let r = pop(stack)?;
    let (p, q) = two(stack)?;
    boxed(alloc, Proof::Ore(a.into_inner(), b.into_inner(), p, q, r))
}

fn instance(alloc: Global, stack: &mut Stack, fields: &mut Words<'_>) -> Made {
    let a = formula(alloc, fields.next()?)?;
    let t = term(alloc, fields.next()?)?;
    let p = pop(stack)?;
    boxed(alloc, Proof::Alle(a.into_inner(), t.into_inner(), p))
}

fn witness(alloc: Global, stack: &mut Stack, fields: &mut Words<'_>) -> Made {
    let t = term(alloc, fields.next()?)?;
    let p = pop(stack)?;
    boxed(alloc, Proof::Exi(t.into_inner(), p))
}

fn replacement(alloc: Global, stack: &mut Stack, fields: &mut Words<'_>) -> Made {
    let a = formula(alloc, fields.next()?)?;
    let s = term(alloc, fields.next()?)?;
    let t = term(alloc, fields.next()?)?;
    let (p, q) = two(stack)?;
    boxed(
        alloc,
        Proof::Repl(a.into_inner(), s.into_inner(), t.into_inner(), p, q),
    )
}

fn induction(alloc: Global, stack: &mut Stack, fields: &mut Words<'_>) -> Made {
    let a = formula(alloc, fields.next()?)?;
    let t = term(alloc, fields.next()?)?;
    let (p, q) = two(stack)?;
    boxed(alloc, Proof::Ind(a.into_inner(), t.into_inner(), p, q))
}
