// Laws over the definitions.
ghost use Rattle.pg_named.specs.Laws.{FunctionRises, PredicateRises, StatementRises, TokensRise};

/// The tokens of a text stand one behind the other, and where those of a command do, its parameters and the words of its
/// binders do too. So the calls that judge these may be made of what `pg_forms` tells.
pub fn rising_law()
    ensures tokens { TokensRise }
    ensures function { FunctionRises }
    ensures predicate { PredicateRises }
    ensures statement { StatementRises }
{}
