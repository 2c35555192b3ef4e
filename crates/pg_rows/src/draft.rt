// Worlds and levels that are no course yet.
use crate::fault::RowFault;
use crate::row::first_word;
use pg_worlds::{Graph, LevelItems, TacticName};
use std::alloc::{AllocError, Global};

/// Worlds with their names, and the levels that rows have put behind them. A world's number is its place.
#[derive(Drop)]
pub struct Draft {
    names: Vec<String>,
    /// How many levels each world is said to have.
    levels: Vec<u16>,
    /// The numbers of the worlds that each world needs.
    needs: Vec<Vec<u16>>,
    pub items: Vec<LevelItems>,
}

/// Which of a level's lists a word of its row goes on.
#[derive(Clone, Copy)]
enum Part {
    Own,
    New,
    Disabled,
    OnlyMoves,
    OnlyTheorems,
}

impl Draft {
    /// No world and no level.
    pub fn new(alloc: Global) -> Draft {
        Draft {
            names: Vec::new(alloc),
            levels: Vec::new(alloc),
            needs: Vec::new(alloc),
            items: Vec::new(alloc),
        }
    }

    /// Worlds without levels: each word is `NAME:COUNT>NEED,NEED`, of which each part may be left out. A name that no
    /// world has stands for the number of worlds, which no world has.
    pub fn of_worlds(alloc: Global, text: &str) -> Result<Draft, RowFault> {
        let mut draft = Draft::new(alloc);
        for word in text.split_whitespace() {
            draft.add_name(alloc, head(word).0)?;
        }
        for word in text.split_whitespace() {
            draft.add_count(head(word).1)?;
            draft.add_needs(alloc, word)?;
        }
        Ok(draft)
    }

    fn add_name(&mut self, alloc: Global, name: &str) -> Result<(), AllocError> {
        if name.is_empty() {
            return Ok(());
        }
        let name = String::from_str(alloc, name)?;
        self.names.push(name)?;
        Ok(())
    }

    fn add_count(&mut self, count: &str) -> Result<(), RowFault> {
        if count.is_empty() {
            return Ok(());
        }
        let Ok(count) = count.parse::<u16>() else {
            return Err(RowFault::Unread("a world has a number of levels"));
        };
        push_number(&mut self.levels, count)?;
        Ok(())
    }

    /// The needs of a world that has a name.
    fn add_needs(&mut self, alloc: Global, word: &str) -> Result<(), AllocError> {
        if head(word).0.is_empty() {
            return Ok(());
        }
        let mut needs = Vec::new(alloc);
        for name in needed(word).split(',') {
            if !name.is_empty() {
                needs.push(self.number(name))?;
            }
        }
        self.needs.push(needs)?;
        Ok(())
    }

    /// The number of the world of this name, and the number of worlds where none has it.
    fn number(&self, name: &str) -> u16 {
        let mut number: u16 = 0;
        for other in self.names.iter() {
            if other.as_str() == name {
                return number;
            }
            number = number.saturating_add(1);
        }
        number
    }

    /// The name of the world of this number.
    pub fn name(&self, world: u16) -> &str {
        match self.names.get(world as usize) {
            Some(name) => name.as_str(),
            None => "?",
        }
    }

    /// The graph of the worlds, if they are one.
    pub fn graph(&self, alloc: Global) -> Result<Option<Graph>, AllocError> {
        let levels = self.levels.as_slice().to_vec(alloc)?;
        Ok(Graph::checked(levels, self.needs_copied(alloc)?))
    }

    fn needs_copied(&self, alloc: Global) -> Result<Vec<Vec<u16>>, AllocError> {
        let mut needs = Vec::new(alloc);
        for row in self.needs.iter() {
            needs.push(row.as_slice().to_vec(alloc)?)?;
        }
        Ok(needs)
    }

    /// Puts a level without items behind the others for each word, the name of its world.
    pub fn add_levels(&mut self, alloc: Global, text: &str) -> Result<(), AllocError> {
        for name in text.split_whitespace() {
            let level = plain(alloc, self.number(name));
            self.items.push(level)?;
        }
        Ok(())
    }

    /// Puts a level behind the others: the name of its world, and its items.
    pub fn add_level(&mut self, alloc: Global, text: &str) -> Result<(), RowFault> {
        let (name, items) = first_word(text);
        if name.is_empty() {
            return Err(RowFault::Unread("`level` wants a world"));
        }
        let mut level = plain(alloc, self.number(name));
        put_all(alloc, &mut level, items)?;
        push_level(&mut self.items, level)?;
        Ok(())
    }
}

/// The name of a world's word, and its number of levels.
fn head(word: &str) -> (&str, &str) {
    let front = match word.split_once('>') {
        Some((front, _)) => front,
        None => word,
    };
    match front.split_once(':') {
        Some((name, count)) => (name, count),
        None => (front, ""),
    }
}

/// The needs of a world's word.
fn needed(word: &str) -> &str {
    match word.split_once('>') {
        Some((_, needs)) => needs,
        None => "",
    }
}

/// A level of this world with a sample and no items.
fn plain(alloc: Global, world: u16) -> LevelItems {
    LevelItems {
        world,
        new_tactics: Vec::new(alloc),
        new_theorems: Vec::new(alloc),
        own: 0,
        sampled: true,
        disabled_tactics: Vec::new(alloc),
        disabled_theorems: Vec::new(alloc),
        only_tactics: None,
        only_theorems: None,
    }
}

fn push_number(numbers: &mut Vec<u16>, number: u16) -> Result<(), AllocError> {
    numbers.push(number)?;
    Ok(())
}

fn push_level(levels: &mut Vec<LevelItems>, level: LevelItems) -> Result<(), AllocError> {
    levels.push(level)?;
    Ok(())
}

/// Gives a level all items of its row.
fn put_all(alloc: Global, level: &mut LevelItems, text: &str) -> Result<(), RowFault> {
    let mut part = Part::Own;
    for word in text.split_whitespace() {
        match part_of(word) {
            Some(named) => {
                part = named;
                begin(alloc, level, part);
            }
            None if word == "unsampled" => level.sampled = false,
            None => put(level, part, word)?,
        }
    }
    Ok(())
}

fn part_of(word: &str) -> Option<Part> {
    match word {
        "own" => Some(Part::Own),
        "new" => Some(Part::New),
        "disabled" => Some(Part::Disabled),
        "only-moves" => Some(Part::OnlyMoves),
        "only-theorems" => Some(Part::OnlyTheorems),
        _ => None,
    }
}

/// An only-list stands even where it has no item.
fn begin(alloc: Global, level: &mut LevelItems, part: Part) {
    match part {
        Part::OnlyMoves => level.only_tactics = Some(Vec::new(alloc)),
        Part::OnlyTheorems => level.only_theorems = Some(Vec::new(alloc)),
        _ => {}
    }
}

/// Puts a word on this list of a level: a number is a theorem, and another word a move.
fn put(level: &mut LevelItems, part: Part, word: &str) -> Result<(), RowFault> {
    match word.parse::<u32>() {
        Ok(number) => put_theorem(level, part, number),
        Err(_) => match TacticName::named(word) {
            Some(name) => put_move(level, part, name),
            None => Err(RowFault::Unread("no move has this word")),
        },
    }
}

fn put_theorem(level: &mut LevelItems, part: Part, number: u32) -> Result<(), RowFault> {
    match part {
        Part::Own => {
            level.own = number;
            Ok(())
        }
        Part::New => Ok(push_theorem(&mut level.new_theorems, number)?),
        Part::Disabled => Ok(push_theorem(&mut level.disabled_theorems, number)?),
        Part::OnlyTheorems => match &mut level.only_theorems {
            Some(numbers) => Ok(push_theorem(numbers, number)?),
            None => Ok(()),
        },
        Part::OnlyMoves => Err(RowFault::Unread("`only-moves` wants moves")),
    }
}

fn put_move(level: &mut LevelItems, part: Part, name: TacticName) -> Result<(), RowFault> {
    match part {
        Part::New => Ok(push_move(&mut level.new_tactics, name)?),
        Part::Disabled => Ok(push_move(&mut level.disabled_tactics, name)?),
        Part::OnlyMoves => match &mut level.only_tactics {
            Some(names) => Ok(push_move(names, name)?),
            None => Ok(()),
        },
        _ => Err(RowFault::Unread("a theorem has a number")),
    }
}

fn push_theorem(numbers: &mut Vec<u32>, number: u32) -> Result<(), AllocError> {
    numbers.push(number)?;
    Ok(())
}

fn push_move(names: &mut Vec<TacticName>, name: TacticName) -> Result<(), AllocError> {
    names.push(name)?;
    Ok(())
}
