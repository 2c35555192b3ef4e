// What moves and expressions look up, and new names.
ghost use Rattle.std.specs.Prelude.{◌≡◌, ◌≢◌, ◌<◌, ◌^◌, [], length, All};
ghost use Rattle.pg_base.specs.declared.token.Token.{Token as Lexeme};
ghost use Rattle.pg_script.specs.View.{words};
ghost use Rattle.pg_base.specs.Tokens.{word as word_in};
ghost use Rattle.pg_meaning.specs.Scope.{is_called};
ghost use Rattle.pg_moves.specs.Lookup.{theorem_named, given_name, new_name};
ghost use Rattle.pg_goal.specs.View.{lookup_of};
ghost use Rattle.pg_goal.specs.Answers.{IsNamed};

use pg_arith::Signature;
use pg_base::Token;
use pg_kernel::Theorems;
use pg_syntax::fresh_name;
use pg_terms::Name;
use pg_worlds::Available;
use std::alloc::{AllocError, Global};
use thiserror::Error;

/// What moves and expressions look up: what is declared; the theorems of the game, and their names by
/// number, `None` for one without a name; and what the player has in the level.
#[derive(Clone, Copy)]
pub struct Lookup<'g> {
    pub sig: &'g Signature,
    pub theorems: &'g Theorems,
    pub names: &'g [Option<Name>],
    pub available: &'g Available,
}

/// Why there is no new name.
#[derive(Debug, Drop, Error)]
pub enum NameFault {
    /// The name that was given is in use, declared or reserved.
    #[error("the name is taken")]
    NameTaken { name: Name },
    /// There is no memory for the name.
    #[error("out of memory")]
    OutOfMemory,
}

impl From<AllocError> for NameFault {
    ghost use Rattle.std.specs.Prelude.{◌≡◌};
    ghost use Rattle.pg_goal.specs.declared.lookup.NameFault.TheVariants as fault;

    ghost from_gives = { λ _ e. e ≡ fault.OutOfMemory };

    fn from(_: AllocError) -> Self {
        NameFault::OutOfMemory
    }
}

impl Lookup<'_> {
    /// The number of the theorem of this name, if there is one. Takes no memory.
    pub fn theorem_named(&self, name: &str) -> Option<u32>
        requires { length self.now.names.now < 2 ^ 32 }
        ensures { result ≡ theorem_named (lookup_of self.now) name.now }
    {
        let mut number: u32 = 0;
        for theorem in self.names {
            if is_called(name, theorem) {
                return Some(number);
            }
            number += 1;
        }
        None
    }

    /// The name that a script gives, which is some text, where these are in use. It stays as it is: one
    /// that is in use, declared or reserved is `NameTaken`. Want of memory is `OutOfMemory`.
    #[tactic(auto, using(crate::proofs::Names::free_stays))]
    pub fn given_name(
        &self,
        alloc: Global,
        used: &[Name],
        word: &Token<'_>,
    ) -> Result<Name, NameFault>
        requires { word.now.text.now ≢ [] }
        ensures { IsNamed (given_name (lookup_of self.now) used.now (word_in word.now)) result }
    {
        let name = Name::new(alloc, word.text)?;
        let free = fresh_name(alloc, &name, used, self.sig)?;
        if free.as_str() == name.as_str() {
            Ok(name)
        } else {
            Err(NameFault::NameTaken { name })
        }
    }

    /// The first of the names that a script gives, by the same rule; where there is none the default,
    /// made fresh.
    pub fn new_name(
        &self,
        alloc: Global,
        used: &[Name],
        given: &[Token<'_>],
        default: &Name,
    ) -> Result<Name, NameFault>
        requires { All (λ (t : Lexeme). t.text.now ≢ []) given.now }
        ensures { IsNamed (new_name (lookup_of self.now) used.now (words given.now) default.now) result }
    {
        match given.first() {
            None => Ok(fresh_name(alloc, default, used, self.sig)?),
            Some(first) => self.given_name(alloc, used, first),
        }
    }
}

/// Whether a theorem has this name.
fn is_called(text: &str, name: &Option<Name>) -> bool
    ensures { result ≡ is_called text.now name.now }
{
    match name {
        None => false,
        Some(name) => text == name.as_str(),
    }
}
