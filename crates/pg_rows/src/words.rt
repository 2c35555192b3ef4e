// The words of a row, one after the other.
use crate::fault::RowFault;
use crate::row::first_word;
use pg_terms::Name;
use std::alloc::Global;

/// The words of a row that are still to come, with one blank between.
#[derive(Drop)]
pub struct Words<'a> {
    rest: &'a str,
}

impl<'a> Words<'a> {
    /// The words of a text.
    pub fn new(text: &'a str) -> Words<'a> {
        Words { rest: text }
    }

    /// The next word.
    pub fn next(&mut self) -> Result<&'a str, RowFault> {
        let (word, rest) = first_word(self.rest);
        self.rest = rest;
        if word.is_empty() {
            return Err(RowFault::Unread("a word is missing"));
        }
        Ok(word)
    }

    /// The next word, which is a number below 2^64.
    pub fn number(&mut self) -> Result<u64, RowFault> {
        match self.next()?.parse::<u64>() {
            Ok(number) => Ok(number),
            Err(_) => Err(RowFault::Unread("a number is wanted")),
        }
    }

    /// The next word, which is a number below 2^32.
    pub fn short_number(&mut self) -> Result<u32, RowFault> {
        match self.next()?.parse::<u32>() {
            Ok(number) => Ok(number),
            Err(_) => Err(RowFault::Unread("a number below 2^32 is wanted")),
        }
    }

    /// What is left of the text.
    pub fn rest(&self) -> &'a str {
        self.rest
    }
}

/// The name that a word is.
pub fn name(alloc: Global, word: &str) -> Result<Name, RowFault> {
    if word.is_empty() {
        return Err(RowFault::Unread("a name is empty"));
    }
    Ok(Name::new(alloc, word)?)
}
