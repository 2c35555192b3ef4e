// Which fault is the first.
ghost use Rattle.std.specs.Prelude.{◌≡◌, ◌<◌};
ghost use Rattle.pg_faults.specs.View.{fault, kind, limit, found, sooner};
ghost use Rattle.pg_faults.specs.Laws.{LeastLaw};
ghost use Rattle.pg_gametext.specs.Faults as text;

use crate::fault::{Fault, Kind, LimitName};

/// The first of the faults that one part of a text may have and that another part may have: that of the least place, and
/// at one place that of the least rank (docs/GAME-TEXT.md, "Faults"); of two that are alike the one on the left.
/// The least of two lists together is the first of the least of each.
pub fn sooner(left: Option<Fault>, right: Option<Fault>) -> Option<Fault>
    ensures first { found result ≡ sooner (found left) (found right) }
    ensures joins { LeastLaw }
{
    match left {
        Some(f) => Some(earlier(f, right)),
        None => right,
    }
}

/// The first of a fault and of another that there may be.
pub fn earlier(f: Fault, other: Option<Fault>) -> Fault
    ensures first { fault result ≡ text.earlier (fault f) (found other) }
{
    match other {
        Some(g) if comes_before(&g, &f) => g,
        _ => f,
    }
}

/// Whether a fault comes before another: by its place, and at one place by its rank.
fn comes_before(f: &Fault, g: &Fault) -> bool
    ensures { result ≡ text.comes_before (fault f.now) (fault g.now) }
{
    if f.at == g.at {
        rank(f.kind) < rank(g.kind)
    } else {
        f.at < g.at
    }
}

/// The order at one place.
fn rank(of: Kind) -> u32
    ensures { result ≡ text.rank (kind of) }
{
    match of {
        Kind::BadToken => 0,
        Kind::Expected(_) => 1,
        Kind::Unknown => 2,
        Kind::Duplicate(_) => 3,
        Kind::LevelGap(_) => 4,
        Kind::Limit(what, _) => limit_rank(what) + 5,
        Kind::NotRecursive => 20,
    }
}

/// The order of limits at one place.
fn limit_rank(what: LimitName) -> u32
    ensures rank { result ≡ text.limit_rank (limit what) }
    ensures small { result < 15 }
{
    match what {
        LimitName::Worlds => 0,
        LimitName::Levels => 1,
        LimitName::Functions => 2,
        LimitName::Predicates => 3,
        LimitName::Arity => 4,
        LimitName::Tokens => 5,
        LimitName::Nesting => 6,
        LimitName::Nodes => 7,
        LimitName::Height => 8,
        LimitName::Variables => 9,
        LimitName::Hypotheses => 10,
        LimitName::ScriptBytes => 11,
        LimitName::Steps => 12,
        LimitName::Blocks => 13,
        LimitName::Hints => 14,
    }
}
