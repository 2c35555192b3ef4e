// The characters of a tree's text, one after the other.
use crate::fault::RowFault;

/// How many digits are read after the first.
const MORE_DIGITS: u8 = 10;

/// What is left of a tree's text.
#[derive(Drop)]
pub struct Cursor<'a> {
    rest: &'a str,
}

impl<'a> Cursor<'a> {
    /// The whole text.
    pub fn new(text: &'a str) -> Cursor<'a> {
        Cursor { rest: text }
    }

    /// The next character, which is passed; a full stop at the end.
    pub fn next(&mut self) -> char {
        let mut chars = self.rest.chars();
        match chars.next() {
            Some(c) => {
                self.rest = chars.as_str();
                c
            }
            None => '.',
        }
    }

    /// Whether this character is next, which is passed then.
    pub fn passes(&mut self, c: char) -> bool {
        match self.rest.strip_prefix(c) {
            Some(rest) => {
                self.rest = rest;
                true
            }
            None => false,
        }
    }

    /// Passes the parenthesis before a tree's parts.
    pub fn opens(&mut self) -> Result<(), RowFault> {
        self.wants('(', "a tree wants `(`")
    }

    /// Passes the comma between a tree's parts.
    pub fn goes_on(&mut self) -> Result<(), RowFault> {
        self.wants(',', "a tree wants `,`")
    }

    /// Passes the parenthesis behind a tree's parts.
    pub fn closes(&mut self) -> Result<(), RowFault> {
        self.wants(')', "a tree wants `)`")
    }

    /// The number that is next, below 2^32.
    pub fn number(&mut self) -> Result<u32, RowFault> {
        let Some(mut number) = self.digit() else {
            return Err(RowFault::Unread("a tree wants a number"));
        };
        for _ in 0..MORE_DIGITS {
            match self.digit() {
                Some(digit) => number = number.saturating_mul(10).saturating_add(digit),
                None => break,
            }
        }
        if number > u64::from(u32::MAX) {
            return Err(RowFault::Unread("a number of a tree is below 2^32"));
        }
        Ok(number as u32)
    }

    /// The same, below 2^16.
    pub fn short_number(&mut self) -> Result<u16, RowFault> {
        let number = self.number()?;
        if number > u32::from(u16::MAX) {
            return Err(RowFault::Unread("the number of a function or a predicate is below 2^16"));
        }
        Ok(number as u16)
    }

    /// The name before the next opening parenthesis, which is not passed: `x` where there is none.
    pub fn binder(&mut self) -> &'a str {
        let rest = self.rest;
        match rest.find('(') {
            Some(length) if length > 0 => {
                self.rest = rest.get(length..).unwrap_or("");
                rest.get(..length).unwrap_or("x")
            }
            _ => "x",
        }
    }

    /// Nothing is left.
    pub fn ends(&self) -> Result<(), RowFault> {
        if self.rest.is_empty() {
            return Ok(());
        }
        Err(RowFault::Unread("something stands behind a tree"))
    }

    fn wants(&mut self, c: char, else_told: &'static str) -> Result<(), RowFault> {
        if self.passes(c) {
            return Ok(());
        }
        Err(RowFault::Unread(else_told))
    }

    /// The digit that is next, which is passed.
    fn digit(&mut self) -> Option<u64> {
        let mut chars = self.rest.chars();
        match chars.next() {
            Some(c @ '0'..='9') => {
                self.rest = chars.as_str();
                Some((c as u64).saturating_sub(48))
            }
            _ => None,
        }
    }
}
