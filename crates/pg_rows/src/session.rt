// What rows have declared for the rows behind them.
use crate::courses::NamedCourse;
use crate::draft::Draft;
use crate::fault::RowFault;
use pg_arith::Signature;
use pg_kernel::Theorems;
use pg_syntax::Names;
use pg_worlds::Course;
use std::alloc::{AllocError, Global};

/// A signature under its name, with the names of its free variables and its theorems.
#[derive(Drop)]
pub struct Game {
    pub name: String,
    pub signature: Signature,
    pub variables: Names,
    pub theorems: Theorems,
}

impl Game {
    /// The theorems are the axioms of what is declared, and no other.
    pub fn renew_theorems(&mut self, alloc: Global) -> Result<(), AllocError> {
        self.theorems = Theorems::new(alloc, &self.signature)?;
        Ok(())
    }
}

/// What rows have declared for the rows behind them.
#[derive(Drop)]
pub struct Session {
    alloc: Global,
    /// How often a row's work is done, so that it can be timed.
    pub times: u64,
    pub games: Vec<Game>,
    /// The worlds and levels of the rows since the last row `worlds`.
    pub draft: Draft,
    pub courses: Vec<NamedCourse>,
}

impl Session {
    /// Nothing is declared, and each row's work is done once.
    pub fn new(alloc: Global) -> Session {
        Session {
            alloc,
            times: 1,
            games: Vec::new(alloc),
            draft: Draft::new(alloc),
            courses: Vec::new(alloc),
        }
    }

    /// The row `times N`: the work of each row behind it is done N times.
    pub fn set_times(&mut self, rest: &str) -> Result<(), RowFault> {
        match rest.parse::<u64>() {
            Ok(times) => {
                self.times = times;
                Ok(())
            }
            Err(_) => Err(RowFault::Unread("`times` wants a number")),
        }
    }

    /// A new game under this name, with no declarations and no variables; an earlier one of the name is forgotten.
    pub fn begin_game(&mut self, name: &str) -> Result<(), AllocError> {
        let signature = Signature::new(self.alloc)?;
        self.put_game(name, signature)
    }

    /// A game under the name `to` that declares what the one of the name `from` does, on a copy of its signature.
    pub fn copy_game(&mut self, from: &str, to: &str) -> Result<(), RowFault> {
        let signature = self.game(from)?.signature.copied(self.alloc)?;
        Ok(self.put_game(to, signature)?)
    }

    /// The game of this name.
    pub fn game(&self, name: &str) -> Result<&Game, RowFault> {
        match self.games.iter().find(|game| game.name.as_str() == name) {
            Some(game) => Ok(game),
            None => Err(RowFault::Unread("no game has this name")),
        }
    }

    /// Keeps a course under this name; an earlier one of the name is forgotten.
    pub fn put_course(&mut self, name: &str, course: Course) -> Result<(), AllocError> {
        self.courses.retain(|named| named.name.as_str() != name);
        let name = String::from_str(self.alloc, name)?;
        self.courses.push(NamedCourse { name, course })?;
        Ok(())
    }

    /// The course of this name.
    pub fn course(&self, name: &str) -> Result<&Course, RowFault> {
        match self
            .courses
            .iter()
            .find(|named| named.name.as_str() == name)
        {
            Some(named) => Ok(&named.course),
            None => Err(RowFault::Unread("no course has this name")),
        }
    }

    /// The same, for a change.
    pub fn game_mut(&mut self, name: &str) -> Result<&mut Game, RowFault> {
        let Some(at) = self
            .games
            .iter()
            .position(|game| game.name.as_str() == name)
        else {
            return Err(RowFault::Unread("no game has this name"));
        };
        match self.games.get_mut(at) {
            Some(game) => Ok(game),
            None => Err(RowFault::Unread("no game has this name")),
        }
    }

    fn put_game(&mut self, name: &str, signature: Signature) -> Result<(), AllocError> {
        self.games.retain(|game| game.name.as_str() != name);
        let theorems = Theorems::new(self.alloc, &signature)?;
        let game = Game {
            name: String::from_str(self.alloc, name)?,
            signature,
            variables: Names {
                vars: Vec::new(self.alloc),
            },
            theorems,
        };
        self.games.push(game)?;
        Ok(())
    }
}
