// The words of a row.

/// A row: the word of a layer, and what stands behind it.
#[derive(Clone, Copy)]
pub struct Row<'a> {
    pub layer: &'a str,
    pub rest: &'a str,
}

impl<'a> Row<'a> {
    /// The row that a line is.
    pub fn new(line: &'a str) -> Row<'a> {
        let (layer, rest) = first_word(line);
        Row { layer, rest }
    }
}

/// What stands before the first blank, and what stands behind it: nothing where there is no blank.
pub fn first_word(text: &str) -> (&str, &str) {
    match text.split_once(' ') {
        Some((word, rest)) => (word, rest),
        None => (text, ""),
    }
}
