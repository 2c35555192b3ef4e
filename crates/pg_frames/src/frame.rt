use pg_kernel::Proof;
use pg_terms::{Formula, Term};
use sqlite_items::{Boxed, Items};

/// A piece of a proof: one node or a few, with a hole for each new goal. The holes take the proofs
/// of these goals in their order.
///
/// Below, `□` is a hole and the rules are those of the table "Rules" of docs/LOGIC.md.
#[derive(Drop)]
pub enum Frame {
    /// A whole proof, without a hole.
    Whole(Boxed<Proof>),
    /// `predi □`
    UnderPredi,
    /// `alli □`
    UnderAlli,
    /// `impi □`
    UnderImpi,
    /// `orl □`
    UnderOrl,
    /// `orr □`
    UnderOrr,
    /// `fale □`
    UnderFale,
    /// `exi t □`
    UnderExi(Boxed<Term>),
    /// `andi □ □`
    Pair,
    /// `ore a b d □ □`: by cases of what `d` proves.
    Split(Boxed<Formula>, Boxed<Formula>, Boxed<Proof>),
    /// `exe a d □`: by the witness of what `d` proves.
    OpenUp(Boxed<Formula>, Boxed<Proof>),
    /// `impe a (impi □) d`: with `a` for one more hypothesis, which `d` proves.
    Cut(Boxed<Formula>, Boxed<Proof>),
    /// `impe a (impi d) □`: by `a`, from which `d` proves the target.
    Change(Boxed<Formula>, Boxed<Proof>),
    /// `ore a falsum (orl □) □ (fale (hyp m))`: first `a`, and then the target with `a` for one more
    /// hypothesis, whose number is `m`.
    Lemma(Boxed<Formula>, u32),
    /// `repl a t u d □`: with `t` in place of `u`, where `d` proves `t = u`.
    Rewrite(Boxed<Formula>, Boxed<Term>, Boxed<Term>, Boxed<Proof>),
    /// `impe a □ (hyp i)`: with hypothesis `i`, which is `a`, before the target.
    Give(Boxed<Formula>, u32),
    /// A proof with these stages taken off what it proves, the first one first. There is a hole for
    /// each antecedent.
    Applied(Items<Stage>, Boxed<Proof>),
    /// `ind a t (impi.. □) (impi.. □)`, with so many `impi` over each hole.
    Induct(Boxed<Formula>, Boxed<Term>, u32),
    /// `impe y (impe b (impi (impi d)) (impi.. □)) (alli (impi.. □))` of `b` and `y`, with so many
    /// `impi` over each hole: base and step, without a hypothesis of induction.
    ByParts(Boxed<Formula>, Boxed<Formula>, u32, Boxed<Proof>),
}

/// What is taken off a formula from the left.
#[derive(Drop)]
pub enum Stage {
    /// The binder before this body, for which the term stands.
    ForAll(Boxed<Formula>, Boxed<Term>),
    /// This antecedent.
    WhereSo(Boxed<Formula>),
}
