// The words of moves.
ghost use Rattle.std.specs.Prelude.{◌≡◌};
ghost use Rattle.pg_script.specs.Lines.{head_of};

/// Which form stands behind a move's word.
#[derive(Clone, Copy, Debug, PartialEq, Eq)]
pub enum Head {
    Plain,
    Exact,
    Intro,
    Apply,
    Rw,
    Split,
    Use,
    Symm,
    Have,
    Revert,
    ByCases,
    Unknown,
}

pub fn head_of(text: &str) -> Head
    ensures { result ≡ head_of text.now }
{
    match text {
        "rfl" | "left" | "right" | "constructor" | "exfalso" => Head::Plain,
        "exact" => Head::Exact,
        "intro" => Head::Intro,
        "apply" => Head::Apply,
        "rw" => Head::Rw,
        "induction" | "cases" => Head::Split,
        "use" => Head::Use,
        "symm" => Head::Symm,
        "have" => Head::Have,
        "revert" => Head::Revert,
        "by_cases" => Head::ByCases,
        _ => Head::Unknown,
    }
}
