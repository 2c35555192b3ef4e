// Formulas without their leading binders.
ghost use Rattle.std.specs.Prelude.{◌≡◌, ◌+◌, ◌<◌, ◌^◌, List, length};
ghost use Rattle.pg_logic.specs.Declarations.{Name};
ghost use Rattle.pg_logic.specs.Tree.{nodes_of};
ghost use Rattle.pg_moves.specs.Stripped.{unbound};
ghost use Rattle.pg_terms.specs.View.{formula};

use pg_terms::Formula;

/// What stands behind the leading binders of a formula, and how many these are.
#[derive(Clone, Copy)]
pub struct Unbound<'a> {
    pub rest: &'a Formula,
    pub count: u32,
}

/// A formula without its leading binders, where so many are taken off before.
pub fn without_binders<'a>(a: &'a Formula, before: u32) -> Unbound<'a>
    requires { before + nodes_of (formula a.now) < 2 ^ 32 }
    ensures rest { (xs : List Name) → formula result.rest.now ≡ (unbound xs (formula a.now)).rest }
    ensures count { (xs : List Name) → length xs ≡ before → result.count ≡ length (unbound xs (formula a.now)).binders }
{
    match a {
        Formula::All(_, body) => without_binders(body.get(), before + 1),
        _ => Unbound {
            rest: a,
            count: before,
        },
    }
}
