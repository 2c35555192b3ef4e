// The names of a quantifier, as far as they stand.
ghost use Rattle.std.specs.Prelude.{◌≡◌, ◌+◌, ◌<◌, ◌^◌, ◌++◌, ◌∷◌, [], map, option_map, IfOk, OnOk};
ghost use Rattle.pg_grammar.specs.Shapes as grammar;
ghost use Rattle.pg_grammar.specs.Machine as machine;
ghost use Rattle.pg_shape.specs.View.{word, group, bracket, binders};
ghost use Rattle.pg_shape.specs.Headings.{heading, Goes};
ghost use Rattle.pg_shape.specs.Symbols.{sym};

use crate::shape::{Binders, Bracket, Group, Word};
use crate::symbol::Sym;
use pg_base::Wanted;
use sqlite_items::Items;
use std::alloc::{AllocError, Global};
use std::mem;

/// What stands last of a quantifier's names.
#[derive(Clone, Copy)]
pub enum Part {
    /// Nothing.
    Unnamed,
    /// `x y`
    PlainNames,
    /// `x y :`
    PlainColon,
    /// `x y : ℕ`
    PlainTyped,
    /// `(`
    GroupOpen,
    /// `(x y`
    GroupNames,
    /// `(x y :`
    GroupColon,
    /// `(x y : ℕ`
    GroupTyped,
    /// `(x y : ℕ)`
    GroupClosed,
}

/// What stands of a quantifier's names.
#[derive(Drop)]
pub struct Heading<'a> {
    pub part: Part,
    /// The groups in parentheses before the last one.
    pub groups: Items<Bracket<'a>>,
    /// Where the last group opens, if it stands in parentheses.
    pub at: u32,
    /// The names of the last group.
    pub names: Group<'a>,
}

impl<'a> Heading<'a> {
    /// Nothing of the names stands there.
    pub fn new(alloc: Global) -> Heading<'a>
        ensures { heading result ≡ machine.Unnamed }
    {
        Heading {
            part: Part::Unnamed,
            groups: Items::new(alloc),
            at: 0,
            names: alone(alloc, Word { at: 0, text: "" }),
        }
    }

    /// Whether the names go on with this symbol, which then is taken. It fails only for want of memory.
    pub fn step(&mut self, alloc: Global, symbol: Sym<'a>) -> Result<bool, AllocError>
        ensures { IfOk result (λ went. Goes (machine.heading_step (heading self.old) (sym symbol.entry)) went (heading self.new)) }
    {
        match symbol {
            Sym::Name(name) => self.name(alloc, name),
            Sym::Open(at) => self.open(alloc, at),
            Sym::Close => Ok(self.close()),
            Sym::Colon => Ok(self.colon()),
            Sym::Nat => Ok(self.nat()),
            _ => Ok(false),
        }
    }

    /// A name.
    fn name(&mut self, alloc: Global, name: Word<'a>) -> Result<bool, AllocError>
        ensures { IfOk result (λ went. Goes (machine.heading_step (heading self.old) (grammar.Name (word name.entry))) went (heading self.new)) }
    {
        match self.part {
            Part::Unnamed => {
                self.part = Part::PlainNames;
                self.names = alone(alloc, name);
            }
            Part::GroupOpen => {
                self.part = Part::GroupNames;
                self.names = alone(alloc, name);
            }
            Part::PlainNames | Part::GroupNames => push_name(&mut self.names, name)?,
            _ => return Ok(false),
        }
        Ok(true)
    }

    /// An opening parenthesis.
    fn open(&mut self, alloc: Global, at: u32) -> Result<bool, AllocError>
        ensures { IfOk result (λ went. Goes (machine.heading_step (heading self.old) (grammar.Open at)) went (heading self.new)) }
    {
        match self.part {
            Part::Unnamed => self.forget_groups(alloc),
            Part::GroupClosed => self.push_last(alloc)?,
            _ => return Ok(false),
        }
        self.part = Part::GroupOpen;
        self.at = at;
        Ok(true)
    }

    /// No group stands before the last one.
    fn forget_groups(&mut self, alloc: Global)
        ensures { self.new.groups ≡ [] }
    {
        let _none = mem::replace(&mut self.groups, Items::new(alloc));
    }

    /// The last group stands before another one.
    #[tactic(auto, using(crate::proofs::Lists::reads))]
    fn push_last(&mut self, alloc: Global) -> Result<(), AllocError>
        ensures { OnOk result (map bracket self.new.groups ≡ map bracket self.old.groups ++ machine.bracket self.old.at (group self.old.names) ∷ []) }
    {
        let nameless = alone(alloc, Word { at: 0, text: "" });
        let names = mem::replace(&mut self.names, nameless);
        self.groups.push(Bracket { at: self.at, names })
    }

    /// A closing parenthesis.
    fn close(&mut self) -> bool
        ensures { Goes (machine.heading_step (heading self.old) grammar.Close) result (heading self.new) }
    {
        match self.part {
            Part::GroupTyped => self.part = Part::GroupClosed,
            _ => return false,
        }
        true
    }

    /// A colon.
    fn colon(&mut self) -> bool
        ensures { Goes (machine.heading_step (heading self.old) grammar.Colon) result (heading self.new) }
    {
        match self.part {
            Part::PlainNames => self.part = Part::PlainColon,
            Part::GroupNames => self.part = Part::GroupColon,
            _ => return false,
        }
        true
    }

    /// `ℕ`
    fn nat(&mut self) -> bool
        ensures { Goes (machine.heading_step (heading self.old) grammar.NatSign) result (heading self.new) }
    {
        match self.part {
            Part::PlainColon => self.part = Part::PlainTyped,
            Part::GroupColon => self.part = Part::GroupTyped,
            _ => return false,
        }
        true
    }

    /// The names, where they are whole.
    pub fn binders(self) -> Option<Binders<'a>>
        ensures { option_map binders result ≡ machine.binders_of (heading self.entry) }
    {
        let Heading {
            part,
            groups,
            at,
            names,
        } = self;
        match part {
            Part::PlainNames => Some(Binders::Plain(names)),
            Part::PlainTyped => Some(Binders::Typed(names)),
            Part::GroupClosed => Some(Binders::Grouped(groups, Bracket { at, names })),
            _ => None,
        }
    }

    /// How deep the last of these names and signs is nested, where the quantifier is `depth` deep.
    pub fn depth(&self, depth: u64) -> u64
        requires { depth + 2 < 2 ^ 64 }
        ensures { result ≡ machine.heading_depth (heading self.now) depth }
    {
        match self.part {
            Part::Unnamed => depth,
            Part::GroupNames | Part::GroupColon | Part::GroupTyped => depth + 2,
            _ => depth + 1,
        }
    }

    /// What could stand next. For `ℕ` there is no word of its own: it is a sign.
    pub fn wanted(&self) -> Wanted {
        match self.part {
            Part::Unnamed | Part::PlainNames | Part::GroupOpen | Part::GroupNames => Wanted::Name,
            Part::GroupTyped => Wanted::CloseParen,
            _ => Wanted::SignOrEnd,
        }
    }
}

/// A group of one name.
fn alone<'a>(alloc: Global, first: Word<'a>) -> Group<'a>
    ensures { group result ≡ machine.alone (word first.entry) }
{
    Group {
        first,
        others: Items::new(alloc),
    }
}

/// One name more in a group.
#[tactic(auto, using(crate::proofs::Lists::reads))]
fn push_name<'a>(names: &mut Group<'a>, name: Word<'a>) -> Result<(), AllocError>
    ensures { OnOk result (group names.new ≡ machine.with_name (group names.old) (word name.entry)) }
{
    names.others.push(name)
}
