use pg_terms::{Formula, Term};
use sqlite_items::Boxed;

/// A formal proof: a tree whose nodes name the rules that they use. A node has the fields of its
/// rule, then the proofs of its premises, in the order of the table "Rules" of docs/LOGIC.md.
///
/// A body is a formula with at most one loose bound variable, `Bound(0)` at its root.
#[derive(Drop)]
pub enum Proof {
    /// The hypothesis of this number.
    Hyp(u32),
    /// The theorem of this number.
    Thm(u32),
    /// A conjunction, from both sides.
    Andi(Boxed<Proof>, Boxed<Proof>),
    /// The left side of a conjunction, whose right side is the field.
    Andl(Formula, Boxed<Proof>),
    /// The right side of a conjunction, whose left side is the field.
    Andr(Formula, Boxed<Proof>),
    /// A disjunction, from its left side.
    Orl(Boxed<Proof>),
    /// A disjunction, from its right side.
    Orr(Boxed<Proof>),
    /// By cases of a disjunction, whose sides are the fields.
    Ore(Formula, Formula, Boxed<Proof>, Boxed<Proof>, Boxed<Proof>),
    /// An implication, from its right side under its left one.
    Impi(Boxed<Proof>),
    /// From an implication and its left side, which is the field.
    Impe(Formula, Boxed<Proof>, Boxed<Proof>),
    /// Anything, from falsity.
    Fale(Boxed<Proof>),
    /// A formula or its negation.
    Lem,
    /// A universal formula, from its body at a new variable.
    Alli(Boxed<Proof>),
    /// An instance of a universal formula with this body, at this term.
    Alle(Formula, Term, Boxed<Proof>),
    /// An existential formula, from its body at this term.
    Exi(Term, Boxed<Proof>),
    /// From an existential formula with this body, by its body at a new variable.
    Exe(Formula, Boxed<Proof>, Boxed<Proof>),
    /// Rule 17: `t = t`, for any term.
    Refl,
    /// A body at the right side of an equation, from the equation and the body at the
    /// left side. The fields are the body and the two sides.
    Repl(Formula, Term, Term, Boxed<Proof>, Boxed<Proof>),
    /// This body at this term, by induction.
    Ind(Formula, Term, Boxed<Proof>, Boxed<Proof>),
    /// A declared predicate at terms, from its body at them.
    Predi(Boxed<Proof>),
    /// The body of a declared predicate at terms, from this predicate formula.
    Prede(Formula, Boxed<Proof>),
}
