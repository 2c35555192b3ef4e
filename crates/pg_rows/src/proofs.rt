// Rows of proofs that the kernel checks.
ghost use Rattle.std.specs.Prelude.{◌≡◌, true};
ghost use Rattle.pg_logic.specs.Sound.{AllFit};
ghost use Rattle.pg_terms.specs.View.{formulas};
ghost use Rattle.pg_arith.specs.View.{signature};

use crate::fault::RowFault;
use crate::reply::Reply;
use crate::row::{Row, first_word};
use crate::session::{Game, Session};
use crate::spelling::write_formula;
use crate::steps::proof;
use crate::tree;
use crate::words::Words;
use pg_arith::Signature;
use pg_kernel::{Proof, Verdict, admit, check, uses};
use pg_terms::Formula;
use sqlite_items::{Boxed, Items};
use std::alloc::Global;

/// Answers a row of this layer.
pub fn row(
    alloc: Global,
    session: &mut Session,
    row: Row<'_>,
    reply: &mut Reply,
) -> Result<(), RowFault> {
    if row.layer == "uses" {
        return named(alloc, row.rest, reply);
    }
    let (game, rest) = first_word(row.rest);
    let times = session.times;
    match row.layer {
        "theorem" => theorem(alloc, session.game_mut(game)?, rest, reply),
        "check" => checked(alloc, session.game(game)?, times, rest, reply),
        _ => admitted(alloc, session.game(game)?, rest, reply),
    }
}

/// The numbers of the theorems that a copy of a proof names.
fn named(alloc: Global, steps: &str, reply: &mut Reply) -> Result<(), RowFault> {
    let proof = proof(alloc, steps)?;
    let copy = Boxed::new(alloc, proof.get().copied(alloc)?)?;
    let mut line = String::from_str(alloc, "theorems:")?;
    for number in &uses(alloc, copy.get())? {
        write!(line, " {number}")?;
    }
    Ok(reply.line(line.as_str())?)
}

/// Puts a theorem behind the others of a game, and tells it as it stands there, with its number.
fn theorem(alloc: Global, game: &mut Game, word: &str, reply: &mut Reply) -> Result<(), RowFault> {
    if game.theorems.count() > 1_000_000 {
        return Err(RowFault::Unread("there are too many theorems"));
    }
    let a = tree::formula(alloc, word)?;
    let number = game.theorems.push(a.into_inner())?;
    let mut line = format!(in alloc; "theorem {number} ")?;
    if let Some(a) = game.theorems.get(number) {
        write_formula(&mut line, a)?;
    }
    Ok(reply.line(line.as_str())?)
}

/// `VARS HYPS ⊢ GOAL : STEPS`: the verdict.
fn checked(
    alloc: Global,
    game: &Game,
    times: u64,
    text: &str,
    reply: &mut Reply,
) -> Result<(), RowFault> {
    let Some((context, claim)) = text.split_once("⊢ ") else {
        return Err(RowFault::Unread("`⊢` is missing"));
    };
    let mut words = Words::new(context);
    let vars = words.short_number()?;
    let hyps = hypotheses(alloc, words.rest())?;
    let verdict = verdict(alloc, game, times, vars, hyps.as_slice(), claim)?;
    let line = match verdict {
        Verdict::Accepted => format!(in alloc; "accepted")?,
        Verdict::Refused { node, rule } => {
            format!(in alloc; "refused at node {node} by rule {rule}")?
        }
    };
    Ok(reply.line(line.as_str())?)
}

fn hypotheses(alloc: Global, words: &str) -> Result<Items<Formula>, RowFault> {
    let mut hyps = Items::new(alloc);
    for word in words.split_whitespace() {
        hyps.push(tree::formula(alloc, word)?.into_inner())?;
    }
    Ok(hyps)
}

/// A goal and a proof.
fn claimed(alloc: Global, claim: &str) -> Result<(Boxed<Formula>, Boxed<Proof>), RowFault> {
    let Some((goal, steps)) = claim.split_once(" : ") else {
        return Err(RowFault::Unread("` : ` is missing"));
    };
    let goal = tree::formula(alloc, goal)?;
    Ok((goal, proof(alloc, steps)?))
}

/// Checks a proof so many times.
fn verdict(
    alloc: Global,
    game: &Game,
    times: u64,
    vars: u32,
    hyps: &[Formula],
    claim: &str,
) -> Result<Verdict, RowFault> {
    let (goal, proof) = claimed(alloc, claim)?;
    let (sig, theorems) = (&game.signature, &game.theorems);
    if !all_fit(sig, vars, hyps) || !sig.fits(vars, goal.get()) {
        return Err(RowFault::Unread("a hypothesis or the goal does not fit"));
    }
    let mut verdict = check(alloc, sig, theorems, vars, hyps, proof.get(), goal.get())?;
    for _ in 1..times {
        verdict = check(alloc, sig, theorems, vars, hyps, proof.get(), goal.get())?;
    }
    Ok(verdict)
}

/// Whether all of these formulas fit.
fn all_fit(sig: &Signature, vars: u32, all: &[Formula]) -> bool
    ensures { result ≡ true → AllFit (signature sig.now) vars (formulas all.now) }
{
    let [first, more @ ..] = all else {
        return true;
    };
    if !sig.fits(vars, first) {
        return false;
    }
    all_fit(sig, vars, more)
}

/// `GOAL : STEPS`: the numbers of the theorems that the proof names, where it is admitted.
fn admitted(alloc: Global, game: &Game, claim: &str, reply: &mut Reply) -> Result<(), RowFault> {
    let (goal, proof) = claimed(alloc, claim)?;
    if !game.signature.fits(0, goal.get()) {
        return Err(RowFault::Unread("the goal does not fit"));
    }
    match admit(
        alloc,
        &game.signature,
        &game.theorems,
        goal.into_inner(),
        proof.into_inner(),
    )? {
        Some(checked) => tell_names(alloc, checked.names(), reply),
        None => Ok(reply.line("not admitted")?),
    }
}

fn tell_names(alloc: Global, names: &[u32], reply: &mut Reply) -> Result<(), RowFault> {
    let mut line = String::from_str(alloc, "admitted with theorems:")?;
    for number in names {
        write!(line, " {number}")?;
    }
    Ok(reply.line(line.as_str())?)
}
