// Where the title, the introduction and the conclusion of something stand.
ghost use Rattle.std.specs.Prelude.{◌≡◌};
ghost use Rattle.pg_commands.specs.View.{which};
ghost use Rattle.pg_places.specs.Held.{place_of, with_place, no_texts};

use pg_commands::Which;

/// The bytes at which the first title, introduction and conclusion of the game, a world or a level stand.
#[derive(Clone, Copy, Debug)]
pub struct Texts {
    pub title: Option<u32>,
    pub introduction: Option<u32>,
    pub conclusion: Option<u32>,
}

impl Texts {
    /// None of them yet.
    pub(crate) fn none() -> Texts
        ensures { result ≡ no_texts }
    {
        Texts {
            title: None,
            introduction: None,
            conclusion: None,
        }
    }

    /// Where one of them stands.
    pub(crate) fn place(&self, kind: Which) -> Option<u32>
        ensures { result ≡ place_of (which kind) self.now }
    {
        match kind {
            Which::Title => self.title,
            Which::Introduction => self.introduction,
            Which::Conclusion => self.conclusion,
        }
    }

    /// With one of them at this byte, where it stood nowhere before.
    pub(crate) fn with(self, kind: Which, at: u32) -> Texts
        ensures { result ≡ with_place (which kind) at self }
    {
        match kind {
            Which::Title => Texts {
                title: self.title.or(Some(at)),
                ..self
            },
            Which::Introduction => Texts {
                introduction: self.introduction.or(Some(at)),
                ..self
            },
            Which::Conclusion => Texts {
                conclusion: self.conclusion.or(Some(at)),
                ..self
            },
        }
    }
}
