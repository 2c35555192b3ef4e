// The lines of a proof, written from a stack of what is open, so that a high proof needs no more of the machine's stack than a low one.
ghost use Rattle.std.specs.Prelude.{◌≡◌, ◌++◌, OnOk, IfOk, [], ◌∷◌, flat_map, length, map, string_bytes};
ghost use Rattle.pg_kernel.specs.View.{proof};
ghost use Rattle.pg_cert.specs.Certificates.{premise_text, proof_text};
ghost use Rattle.pg_cert.specs.Open.{premises, rule_text, tasks_of, whole, with_line};
ghost use Rattle.pg_cert.specs.View.{lines, task};

use crate::nodes::write_rule;
use pg_kernel::Proof;
use sqlite_items::Items;
use std::alloc::{AllocError, Global};

/// What is still to be written of a node.
#[derive(Clone, Copy)]
enum Task<'a> {
    /// All of its proof.
    Whole(&'a Proof),
    /// Its own line; those of its premises stand.
    Last(&'a Proof),
}

/// What is written.
#[derive(Drop)]
struct Lines {
    text: String,
    /// The numbers of the lines that no line has used.
    unused: Vec<u64>,
    /// The next line's number.
    next: u64,
}

/// A text with the lines of a proof behind it.
pub(crate) fn with_proof(alloc: Global, text: String, p: &Proof) -> Result<String, AllocError>
    ensures { IfOk result (λ r. string_bytes r ≡ string_bytes text ++ proof_text (proof p.now) 1) }
{
    let mut lines = Lines {
        text,
        unused: Vec::new(alloc),
        next: 1,
    };
    let mut tasks = Items::new(alloc);
    tasks.push(Task::Whole(p))?;
    while let Some(task) = tasks.pop() {
        match task {
            Task::Whole(p) => open(&mut tasks, p)?,
            Task::Last(p) => write_line(&mut lines, p)?,
        }
    }
    Ok(lines.text)
}

/// Writes the line of a node whose premises' lines stand.
fn write_line(out: &mut Lines, p: &Proof) -> Result<(), AllocError>
    ensures { OnOk result (lines out.new ≡ with_line (length (premises (proof p.now))) (rule_text (proof p.now)) (lines out.old)) }
{
    // A text with 2^64 lines has no memory to stand in.
    let after = out.next.checked_add(1).ok_or(AllocError)?;
    let number = out.next;
    let at = out.unused.len().saturating_sub(premise_count(p));
    write!(out.text, "{number} ")?;
    write_rule(&mut out.text, p)?;
    write_premises(&mut out.text, &out.unused[at..])?;
    out.text.push_str("\n")?;
    out.unused.truncate(at);
    out.unused.push(number)?;
    out.next = after;
    Ok(())
}

/// Writes the numbers of the premises' lines.
fn write_premises(out: &mut String, numbers: &[u64]) -> Result<(), AllocError>
    ensures { OnOk result (string_bytes out.new ≡ string_bytes out.old ++ flat_map premise_text numbers.now) }
{
    for m in numbers {
        write!(out, " #{m}")?;
    }
    Ok(())
}

/// How many premises a node has.
fn premise_count(p: &Proof) -> usize
    ensures { result ≡ length (premises (proof p.now)) }
{
    match p {
        Proof::Hyp(_) | Proof::Thm(_) | Proof::Lem | Proof::Refl => 0,
        Proof::Andl(_, _) | Proof::Andr(_, _) | Proof::Orl(_) | Proof::Orr(_) => 1,
        Proof::Impi(_) | Proof::Fale(_) | Proof::Alli(_) | Proof::Alle(_, _, _) => 1,
        Proof::Exi(_, _) | Proof::Predi(_) | Proof::Prede(_, _) => 1,
        Proof::Andi(_, _) | Proof::Impe(_, _, _) | Proof::Exe(_, _, _) => 2,
        Proof::Repl(_, _, _, _, _) | Proof::Ind(_, _, _, _) => 2,
        Proof::Ore(_, _, _, _, _) => 3,
    }
}

/// Puts what is to be written of a node on the stack: its own line, and before it the premises, the
/// first on top.
fn open<'a>(tasks: &mut Items<Task<'a>>, p: &'a Proof) -> Result<(), AllocError>
    ensures { OnOk result (map task tasks.new ≡ map task tasks.old ++ tasks_of (proof p.now) (premises (proof p.now))) }
{
    tasks.push(Task::Last(p))?;
    match p {
        Proof::Hyp(_) | Proof::Thm(_) | Proof::Lem | Proof::Refl => Ok(()),
        Proof::Andl(_, p) | Proof::Andr(_, p) => tasks.push(Task::Whole(p.get())),
        Proof::Orl(p) | Proof::Orr(p) => tasks.push(Task::Whole(p.get())),
        Proof::Impi(p) | Proof::Fale(p) => tasks.push(Task::Whole(p.get())),
        Proof::Alli(p) | Proof::Predi(p) => tasks.push(Task::Whole(p.get())),
        Proof::Exi(_, p) => tasks.push(Task::Whole(p.get())),
        Proof::Prede(_, p) => tasks.push(Task::Whole(p.get())),
        Proof::Alle(_, _, p) => tasks.push(Task::Whole(p.get())),
        Proof::Andi(p, q) => two(tasks, p.get(), q.get()),
        Proof::Impe(_, p, q) | Proof::Exe(_, p, q) => two(tasks, p.get(), q.get()),
        Proof::Ind(_, _, p, q) => two(tasks, p.get(), q.get()),
        Proof::Repl(_, _, _, p, q) => two(tasks, p.get(), q.get()),
        Proof::Ore(_, _, p, q, r) => {
            tasks.push(Task::Whole(r.get()))?;
            two(tasks, p.get(), q.get())
        }
    }
}

/// Puts two proofs on the stack, the first on top.
fn two<'a>(tasks: &mut Items<Task<'a>>, p: &'a Proof, q: &'a Proof) -> Result<(), AllocError>
    ensures { OnOk result (map task tasks.new ≡ map task tasks.old ++ whole (proof q.now) ∷ whole (proof p.now) ∷ []) }
{
    tasks.push(Task::Whole(q))?;
    tasks.push(Task::Whole(p))
}
