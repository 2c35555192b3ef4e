// How large instances are, counted without making them.
ghost use Rattle.std.specs.Prelude.{◌≡◌, ◌+◌, ◌-◌, ◌^◌, min, max, ℕ, List, IfOk, map};
ghost use Rattle.pg_logic.specs.Tree.{Tm, nodes, nodes_of, height, height_of};
ghost use Rattle.pg_terms.specs.View.{term, terms, args, formula};
ghost use Rattle.pg_moves.specs.Instances.{filled, filled_formula};
ghost use Rattle.pg_match.specs.Sizes.{size_of, AreSizes, hole, filled_nodes, all_nodes, formula_nodes, filled_height, all_height, formula_height};

use pg_terms::{Formula, Term};
use sqlite_items::{Boxed, Items};
use std::alloc::{AllocError, Global};

/// How large a tree is. A number past its type's end is given as that end.
#[derive(Clone, Copy)]
pub struct Size {
    /// How many nodes the tree has.
    pub nodes: u64,
    /// How many nodes lie on its longest branch, 1 for a leaf.
    pub height: u32,
}

/// The sizes of terms, in order. It fails only for want of memory.
pub fn sizes(alloc: Global, values: &[Boxed<Term>]) -> Result<Items<Size>, AllocError>
    ensures { IfOk result (λ ss. ss ≡ map size_of (terms values.now)) }
{
    let mut sizes = Items::new(alloc);
    for value in values {
        sizes.push(size_of(value.get()))?;
    }
    Ok(sizes)
}

/// The size of a term.
fn size_of(t: &Term) -> Size
    ensures { result ≡ size_of (term t.now) }
{
    Size {
        nodes: t.size(),
        height: t.height(),
    }
}

/// The size of a pattern whose holes are filled with terms of these sizes: one place a hole, that of the
/// outermost binder first. The terms hold no bound variable. Takes no memory, and time linear in the pattern.
pub fn term_instance_size(pattern: &Term, values: &[Size]) -> Size
    ensures nodes { (ts : List Tm) → AreSizes ts values.now → result.nodes ≡ min (nodes (filled ts (term pattern.now))) (2 ^ 64 - 1) }
    ensures height { (ts : List Tm) → AreSizes ts values.now → result.height ≡ min (height (filled ts (term pattern.now))) (2 ^ 32 - 1) }
{
    term_size(values, 0, pattern)
}

/// The same of a pattern that is a formula.
pub fn formula_instance_size(pattern: &Formula, values: &[Size]) -> Size
    ensures nodes { (ts : List Tm) → AreSizes ts values.now → result.nodes ≡ min (nodes_of (filled_formula ts (formula pattern.now))) (2 ^ 64 - 1) }
    ensures height { (ts : List Tm) → AreSizes ts values.now → result.height ≡ min (height_of (filled_formula ts (formula pattern.now))) (2 ^ 32 - 1) }
{
    formula_size(values, 0, pattern)
}

/// The size of a formula that stands under `depth` of the pattern's own binders. The count of binders stays
/// at its type's end, past which no bound variable is a hole.
fn formula_size(values: &[Size], depth: u64, a: &Formula) -> Size
    ensures nodes { (d : ℕ) (ts : List Tm) → depth ≡ min d (2 ^ 64 - 1) → AreSizes ts values.now → result.nodes ≡ min (formula_nodes d ts (formula a.now)) (2 ^ 64 - 1) }
    ensures height { (d : ℕ) (ts : List Tm) → depth ≡ min d (2 ^ 64 - 1) → AreSizes ts values.now → result.height ≡ min (formula_height d ts (formula a.now)) (2 ^ 32 - 1) }
{
    match a {
        Formula::Falsum => LEAF,
        Formula::Eq(s, t) => {
            let s = term_size(values, depth, s);
            under(beside(s, term_size(values, depth, t)))
        }
        Formula::Pred(_, ts) => under(all_size(values, depth, ts.as_slice())),
        Formula::And(a, b) | Formula::Or(a, b) | Formula::Imp(a, b) => {
            let a = formula_size(values, depth, a.get());
            under(beside(a, formula_size(values, depth, b.get())))
        }
        Formula::All(_, a) | Formula::Ex(_, a) => {
            under(formula_size(values, depth.saturating_add(1), a.get()))
        }
    }
}

/// The size of a term there.
#[cycle(sizes)]
fn term_size(values: &[Size], depth: u64, t: &Term) -> Size
    ensures nodes { (d : ℕ) (ts : List Tm) → depth ≡ min d (2 ^ 64 - 1) → AreSizes ts values.now → result.nodes ≡ min (filled_nodes d ts (term t.now)) (2 ^ 64 - 1) }
    ensures height { (d : ℕ) (ts : List Tm) → depth ≡ min d (2 ^ 64 - 1) → AreSizes ts values.now → result.height ≡ min (filled_height d ts (term t.now)) (2 ^ 32 - 1) }
{
    match t {
        Term::Free(_) | Term::Zero => LEAF,
        Term::Bound(j) => hole_size(values, depth, *j),
        Term::Succ(t) => under(term_size(values, depth, t.get())),
        Term::App(_, ts) => under(all_size(values, depth, ts.as_slice())),
    }
}

/// The nodes of terms there in all, and the greatest of their heights.
#[cycle(sizes)]
fn all_size(values: &[Size], depth: u64, ts: &[Term]) -> Size
    ensures nodes { (d : ℕ) (us : List Tm) → depth ≡ min d (2 ^ 64 - 1) → AreSizes us values.now → result.nodes ≡ min (all_nodes d us (args ts.now)) (2 ^ 64 - 1) }
    ensures height { (d : ℕ) (us : List Tm) → depth ≡ min d (2 ^ 64 - 1) → AreSizes us values.now → result.height ≡ min (all_height d us (args ts.now)) (2 ^ 32 - 1) }
{
    let mut size = Size {
        nodes: 0,
        height: 0,
    };
    for t in ts {
        size = beside(size, term_size(values, depth, t));
    }
    size
}

/// The size of what stands for the bound variable `j` of a pattern there: a value, where it is a hole.
fn hole_size(values: &[Size], depth: u64, j: u32) -> Size
    ensures nodes { (d : ℕ) (ts : List Tm) → depth ≡ min d (2 ^ 64 - 1) → AreSizes ts values.now → result.nodes ≡ min (nodes (hole d ts j)) (2 ^ 64 - 1) }
    ensures height { (d : ℕ) (ts : List Tm) → depth ≡ min d (2 ^ 64 - 1) → AreSizes ts values.now → result.height ≡ min (height (hole d ts j)) (2 ^ 32 - 1) }
{
    let j = u64::from(j);
    let holes = values.len() as u64;
    if j < depth || j - depth >= holes {
        return LEAF;
    }
    values[(holes - 1 - (j - depth)) as usize]
}

/// The size of a leaf.
const LEAF: Size = Size {
    nodes: 1,
    height: 1,
};

/// Two trees side by side.
fn beside(a: Size, b: Size) -> Size
    ensures nodes { result.nodes ≡ min (a.nodes + b.nodes) (2 ^ 64 - 1) }
    ensures height { result.height ≡ max a.height b.height }
{
    Size {
        nodes: a.nodes.saturating_add(b.nodes),
        height: a.height.max(b.height),
    }
}

/// A tree under one node more.
fn under(a: Size) -> Size
    ensures nodes { result.nodes ≡ min (a.nodes + 1) (2 ^ 64 - 1) }
    ensures height { result.height ≡ min (a.height + 1) (2 ^ 32 - 1) }
{
    Size {
        nodes: a.nodes.saturating_add(1),
        height: a.height.saturating_add(1),
    }
}
