// The moves and their words.
ghost use Rattle.std.specs.Prelude.{◌≡◌, ◌<◌, IfSome, Some, map};
ghost use Rattle.pg_worlds.specs.Moves.{place_of, word_of, words, WordsDiffer};

/// A move: a proof word that a game introduces with `NewTactic`.
#[derive(Clone, Copy, Debug, PartialEq, Eq)]
pub enum TacticName {
    Rfl,
    Rw,
    Induction,
    Intro,
    Exact,
    Apply,
    Cases,
    Left,
    Right,
    Constructor,
    Use,
    Symm,
    Exfalso,
    Have,
    Revert,
    ByCases,
}

impl TacticName {
    /// Every move, each once, in the order in which inventories list them.
    pub const ALL: [TacticName; 16] = [
        TacticName::Rfl,
        TacticName::Rw,
        TacticName::Induction,
        TacticName::Intro,
        TacticName::Exact,
        TacticName::Apply,
        TacticName::Cases,
        TacticName::Left,
        TacticName::Right,
        TacticName::Constructor,
        TacticName::Use,
        TacticName::Symm,
        TacticName::Exfalso,
        TacticName::Have,
        TacticName::Revert,
        TacticName::ByCases,
    ];

    /// The move that has this word, or None exactly where no move has it. Takes no memory.
    pub fn named(text: &str) -> Option<TacticName>
        ensures word { IfSome result (λ t. word_of t ≡ text.now) }
        ensures inverse { (t : TacticName) → word_of t ≡ text.now → result ≡ Some t }
        ensures order { map word_of TacticName.ALL ≡ words }
    {
        for t in TacticName::ALL {
            if t.word() == text {
                return Some(t);
            }
        }
        None
    }

    /// The word of the move, as a script spells it. Takes no memory.
    pub fn word(&self) -> &'static str
        ensures word { result.now ≡ word_of self.now }
        ensures differ { WordsDiffer }
    {
        self.text()
    }

    /// The word, move by move.
    fn text(&self) -> &'static str
        ensures { result.now ≡ word_of self.now }
    {
        match self {
            TacticName::Rfl => "rfl",
            TacticName::Rw => "rw",
            TacticName::Induction => "induction",
            TacticName::Intro => "intro",
            TacticName::Exact => "exact",
            TacticName::Apply => "apply",
            TacticName::Cases => "cases",
            TacticName::Left => "left",
            TacticName::Right => "right",
            TacticName::Constructor => "constructor",
            TacticName::Use => "use",
            TacticName::Symm => "symm",
            TacticName::Exfalso => "exfalso",
            TacticName::Have => "have",
            TacticName::Revert => "revert",
            TacticName::ByCases => "by_cases",
        }
    }

    /// The place of the move in `ALL`, from 0.
    pub(crate) fn place(self) -> usize
        ensures place { result ≡ place_of self }
        ensures below { result < 16 }
    {
        self as usize
    }
}
