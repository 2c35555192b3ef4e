// The names of a quantifier's binders.
ghost use Rattle.std.specs.Prelude.{◌≡◌, ◌≢◌, [], ◌∷◌, ◌++◌, map, OnOk};
ghost use Rattle.pg_grammar.specs.Printing as printing;
ghost use Rattle.pg_shape.specs.View.{word, group, bracket, binders as binders_in};
ghost use Rattle.pg_syntax.specs.Steps.{AreTexts, texts};

use pg_shape::{Binders, Bracket, Group, Word};
use pg_terms::Name;
use sqlite_items::Items;
use std::alloc::{AllocError, Global};

/// The names of a quantifier are put behind the binders around it. It fails only for want of memory.
#[tactic(auto, using(crate::proofs::Texts::texts_rules))]
pub fn push_names(
    alloc: Global,
    binders: &mut Items<Name>,
    names: &Binders<'_>,
) -> Result<(), AllocError>
    requires { AreTexts (printing.binder_words (binders_in names.now)) }
    ensures { OnOk result (binders.new ≡ binders.old ++ texts (printing.binder_words (binders_in names.now))) }
{
    match names {
        Binders::Plain(g) | Binders::Typed(g) => push_group(alloc, binders, g),
        Binders::Grouped(brackets, last) => {
            push_brackets(alloc, binders, brackets.as_slice())?;
            push_group(alloc, binders, &last.names)
        }
    }
}

/// The names of groups in parentheses, in order.
#[tactic(auto, using(crate::proofs::Texts::texts_rules))]
fn push_brackets(
    alloc: Global,
    binders: &mut Items<Name>,
    brackets: &[Bracket<'_>],
) -> Result<(), AllocError>
    requires { AreTexts (printing.bracket_words (map bracket brackets.now)) }
    ensures { OnOk result (binders.new ≡ binders.old ++ texts (printing.bracket_words (map bracket brackets.now))) }
{
    for bracket in brackets {
        push_group(alloc, binders, &bracket.names)?;
    }
    Ok(())
}

/// The names of one group, in order.
#[tactic(auto, using(crate::proofs::Texts::texts_rules))]
fn push_group(alloc: Global, binders: &mut Items<Name>, names: &Group<'_>) -> Result<(), AllocError>
    requires { AreTexts (printing.group_words (group names.now)) }
    ensures { OnOk result (binders.new ≡ binders.old ++ texts (printing.group_words (group names.now))) }
{
    push_word(alloc, binders, &names.first)?;
    push_words(alloc, binders, names.others.as_slice())
}

/// Names, in order.
#[tactic(auto, using(crate::proofs::Texts::texts_rules))]
fn push_words(
    alloc: Global,
    binders: &mut Items<Name>,
    words: &[Word<'_>],
) -> Result<(), AllocError>
    requires { AreTexts (map word words.now) }
    ensures { OnOk result (binders.new ≡ binders.old ++ texts (map word words.now)) }
{
    for name in words {
        push_word(alloc, binders, name)?;
    }
    Ok(())
}

/// One name.
fn push_word(alloc: Global, binders: &mut Items<Name>, name: &Word<'_>) -> Result<(), AllocError>
    requires { name.now.text.now ≢ [] }
    ensures { OnOk result (binders.new ≡ binders.old ++ name.now.text.now ∷ []) }
{
    binders.push(Name::new(alloc, name.text)?)
}
