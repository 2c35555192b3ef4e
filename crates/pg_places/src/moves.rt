// The names of moves.
ghost use Rattle.std.specs.Prelude.{◌≡◌, ◌∷◌, []};
ghost use Rattle.pg_base.specs.Tokens.{word};
ghost use Rattle.std.specs.Str.{bytes_eq};
ghost use Rattle.std.specs.List.{list_any};
ghost use Rattle.pg_faults.specs.View.{found};
ghost use Rattle.pg_script.specs.View.{words};
ghost use Rattle.pg_worlds.specs.Moves.{word_of};
ghost use Rattle.pg_gametext.specs.Checks.{move_faults, moves};
ghost use Rattle.pg_gametext.specs.Faults as text;

use pg_base::Token;
use pg_faults::{Fault, Kind, sooner};
use pg_worlds::TacticName;

/// The first fault of names that are to be moves. Takes no memory, and time linear in the names.
pub(crate) fn move_fault(names: &[Token<'_>]) -> Option<Fault>
    ensures { found result ≡ text.least (move_faults (words names.now)) }
{
    let mut first = None;
    for name in names {
        first = sooner(first, name_fault(name));
    }
    first
}

/// The fault of one name that is to be a move.
fn name_fault(name: &Token<'_>) -> Option<Fault>
    ensures { found result ≡ text.least (move_faults (word name.now ∷ [])) }
{
    if is_move(name.text) {
        return None;
    }
    Some(Fault {
        at: name.at,
        kind: Kind::Unknown,
    })
}

/// Whether this is the word of a move.
fn is_move(text: &str) -> bool
    ensures { result ≡ list_any (λ t. bytes_eq text.now (word_of t)) moves }
{
    TacticName::named(text).is_some()
}
