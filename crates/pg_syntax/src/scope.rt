// What names, numbers and signs stand for at a place.
ghost use Rattle.std.specs.Prelude.{◌≡◌, ◌^◌, ◌<◌, length, option_map, position, reverse, IfSome};
ghost use Rattle.std.specs.Str.{bytes_eq};
ghost use Rattle.pg_meaning.specs.Scope as meaning;
ghost use Rattle.pg_shape.specs.View.{op as sign};
ghost use Rattle.pg_syntax.specs.View.{scope, thing, HasRoom};

use crate::names::Names;
use pg_arith::Signature;
use pg_shape::Op;
use pg_terms::Name;

/// The names that count at a place: those of the free variables, of the binders around it, the
/// outermost first, and what is declared.
#[derive(Clone, Copy)]
pub struct Scope<'s> {
    pub names: &'s Names,
    pub sig: &'s Signature,
    pub binders: &'s [Name],
}

/// What a name stands for.
#[derive(Clone, Copy)]
pub enum Thing {
    /// A binder, by how many stand inside it.
    Binder(u32),
    /// A free variable, by number.
    Variable(u32),
    /// A function or a constant, by number.
    Function(u16),
    /// A predicate, by number.
    Predicate(u16),
}

impl<'s> Scope<'s> {
    /// What a name stands for, if it stands for anything.
    #[tactic(auto, using(pg_meaning::proofs::Lookups::found))]
    pub fn looked_up(&self, text: &str) -> Option<Thing>
        requires { HasRoom self.now }
        ensures is { option_map thing result ≡ meaning.looked_up (scope self.now) text.now }
        ensures there { IfSome result (λ t. meaning.IsThere (scope self.now) (thing t)) }
    {
        if let Some(i) = binder_place(self.binders, text) {
            return Some(Thing::Binder(i as u32));
        }
        if let Some(i) = variable_place(self.names.vars.as_slice(), text) {
            return Some(Thing::Variable(i));
        }
        if let Some(f) = self.sig.function_named(text) {
            return Some(Thing::Function(f));
        }
        match self.sig.predicate_named(text) {
            Some(p) => Some(Thing::Predicate(p)),
            None => None,
        }
    }
}

/// The innermost binder of this name, by how many stand inside it.
fn binder_place(binders: &[Name], text: &str) -> Option<usize>
    ensures is { result ≡ position (bytes_eq text.now) (reverse binders.now) }
    ensures bound { IfSome result (λ i. i < length binders.now) }
{
    binders.iter().rev().position(|name| text == name.as_str())
}

/// The first live variable of this name.
fn variable_place(vars: &[Option<Name>], text: &str) -> Option<u32>
    requires { length vars.now < 2 ^ 32 }
    ensures { result ≡ position (meaning.is_called text.now) vars.now }
{
    let mut number: u32 = 0;
    for name in vars {
        if is_called(text, name) {
            return Some(number);
        }
        number += 1;
    }
    None
}

/// Whether a free variable lives and has this name.
fn is_called(text: &str, name: &Option<Name>) -> bool
    ensures { result ≡ meaning.is_called text.now name.now }
{
    match name {
        None => false,
        Some(name) => text == name.as_str(),
    }
}

/// The text of a sign that stands for a function or a predicate.
pub fn sign_text(op: Op) -> &'static str
    ensures { result.now ≡ meaning.sign_text (sign op) }
{
    match op {
        Op::Plus => "+",
        Op::Times => "*",
        Op::Power => "^",
        Op::LessEqual => "≤",
        Op::Less => "<",
        _ => "",
    }
}
