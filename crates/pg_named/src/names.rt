// The names before a place.
ghost use Rattle.std.specs.Prelude.{◌≡◌, ◌++◌, [], IfOk, map, reverse, if◌then◌else◌, false};
ghost use Rattle.pg_forms.specs.View.{binder};
ghost use Rattle.pg_faults.specs.View.{found};
ghost use Rattle.pg_gametext.specs.Faults.{least, one_over, variable_limit, hypothesis_limit, Variables, Hypotheses};
ghost use Rattle.pg_gametext.specs.Before.{builtin_names, first_place, bound_name, all_binder_words, only_declared};
ghost use Rattle.pg_gametext.specs.Checks.{given_faults, differing_faults, variable_words, hypothesis_words};
ghost use Rattle.pg_named.specs.View.{given, maybe_given, given_before, bound_before, listed};
ghost use Rattle.pg_named.specs.Own.{own_clash, with_own};
ghost use Rattle.pg_named.specs.Bound.{Rises};

use crate::binders::{add_binders, binders_fault};
use crate::given::{Given, GivenNames};
use crate::search::{clash, first_place, sooner_place, with_entry};
use pg_faults::{Fault, sooner};
use pg_forms::BinderText;
use std::alloc::{AllocError, Global};

/// The names that stand before a place: those given, each with its place and whether it is declared, and those of
/// variables and hypotheses. After want of memory it stands for no place.
#[derive(Drop)]
pub struct Names<'a> {
    given: Vec<Given<'a>>,
    bound: Vec<Given<'a>>,
}

impl<'a> Names<'a> {
    /// The names before the first command: those of the axioms of Peano, which stand nowhere in the text.
    pub fn new(alloc: Global) -> Result<Names<'a>, AllocError>
        ensures given { IfOk result (λ n. given_before n ≡ builtin_names) }
        ensures bound { IfOk result (λ n. bound_before n ≡ []) }
    {
        let mut given = Vec::new(alloc);
        given.push(builtin("zero_ne_succ"))?;
        given.push(builtin("succ_inj"))?;
        Ok(Names {
            given,
            bound: Vec::new(alloc),
        })
    }

    /// The first fault of the names that a command gives: each differs from those given before it, and a declared name
    /// from those of variables and hypotheses too (`given_faults` of `pg_gametext`).
    pub fn given_fault(&self, names: &GivenNames<'a>) -> Option<Fault>
        ensures { found result ≡ least (given_faults (given_before self.now) (bound_before self.now) (listed names.now)) }
    {
        let first = self.own_clash(None, None, names.first);
        let second = self.own_clash(None, names.first, names.second);
        let third = self.own_clash(names.first, names.second, names.third);
        sooner(first, sooner(second, third))
    }

    /// The fault of one name of a command, behind up to two others of it.
    fn own_clash(
        &self,
        farther: Option<Given<'a>>,
        nearer: Option<Given<'a>>,
        name: Option<Given<'a>>,
    ) -> Option<Fault>
        ensures { found result ≡ least (own_clash (given_before self.now) (bound_before self.now) (maybe_given nearer.entry ++ maybe_given farther.entry) (maybe_given name.entry)) }
    {
        let name = name?;
        let before = self.place_before(&name);
        let place = with_own(name.name, nearer, with_own(name.name, farther, before));
        clash(name.at, place)
    }

    /// The least place before at which a name stands that this one may not be.
    fn place_before(&self, name: &Given<'a>) -> Option<u32>
        ensures { result ≡ first_place (given name.now).name (if (given name.now).declared then given_before self.now ++ bound_before self.now else given_before self.now) }
    {
        let first = first_place(name.name, false, &self.given);
        if name.declared {
            sooner_place(first, first_place(name.name, false, &self.bound))
        } else {
            first
        }
    }

    /// Adds the names that a command gives.
    pub fn add_given(&mut self, names: &GivenNames<'a>) -> Result<(), AllocError>
        ensures given { IfOk result (λ u. given_before self.new ≡ listed names.now ++ given_before self.old) }
        ensures bound { bound_before self.new ≡ bound_before self.old }
    {
        add(&mut self.given, names.third)?;
        add(&mut self.given, names.second)?;
        add(&mut self.given, names.first)
    }

    /// The first fault of the names of a statement's variables and hypotheses, whose words stand in order of place: each
    /// differs from the declared names before it and from those before it in the statement, and there are at most 64
    /// variables and 64 hypotheses. The one error is want of memory.
    pub fn binders_fault(
        &self,
        alloc: Global,
        binders: &[BinderText<'_, 'a>],
    ) -> Result<Option<Fault>, AllocError>
        requires { Rises (all_binder_words (map binder binders.now)) }
        ensures { IfOk result (λ f. found f ≡ least (differing_faults (only_declared (given_before self.now)) (map bound_name (all_binder_words (map binder binders.now))) ++ (one_over Variables variable_limit (variable_words (map binder binders.now)) ++ one_over Hypotheses hypothesis_limit (hypothesis_words (map binder binders.now))))) }
    {
        binders_fault(alloc, &self.given, binders)
    }

    /// Adds the names of a statement's variables and hypotheses.
    pub fn add_bound(&mut self, binders: &[BinderText<'_, 'a>]) -> Result<(), AllocError>
        ensures bound { IfOk result (λ u. bound_before self.new ≡ map bound_name (all_binder_words (map binder binders.now)) ++ bound_before self.old) }
        ensures given { given_before self.new ≡ given_before self.old }
    {
        add_binders(&mut self.bound, binders)
    }
}

fn builtin(name: &'static str) -> Given<'static>
    ensures { given result ≡ record { name = name.now; at = 0; declared = false } }
{
    Given {
        name,
        at: 0,
        declared: false,
    }
}

/// Puts a name, if there is one, nearest.
fn add<'a>(entries: &mut Vec<Given<'a>>, name: Option<Given<'a>>) -> Result<(), AllocError>
    ensures { IfOk result (λ u. map given (reverse entries.new.items) ≡ maybe_given name.entry ++ map given (reverse entries.old.items)) }
{
    if let Some(name) = name {
        entries.push(name)?;
    }
    Ok(())
}

/// The least place of a name, where another name of its command counts too.
fn with_own(name: &str, own: Option<Given<'_>>, place: Option<u32>) -> Option<u32>
    ensures { result ≡ with_own name.now (maybe_given own.entry) place }
{
    match own {
        Some(own) => with_entry(name, false, &own, place),
        None => place,
    }
}
