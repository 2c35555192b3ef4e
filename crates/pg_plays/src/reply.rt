// The lines that are printed behind a row.
use crate::fault::RowFault;
use std::alloc::{AllocError, Global};

/// How many bytes of a line are printed at most. Of a longer line the front is, and its length.
const LINE_LIMIT: usize = 400;

/// How many bytes of a line's front are printed where it is too long.
const FRONT: usize = 60;

/// The lines behind a row.
#[derive(Drop)]
pub struct Reply {
    lines: String,
}

impl Reply {
    /// No line.
    pub fn new(alloc: Global) -> Reply {
        Reply {
            lines: String::new(alloc),
        }
    }

    /// All lines so far, each ended by a line feed.
    pub fn lines(&self) -> &str {
        self.lines.as_str()
    }

    /// One line more. It fails only for want of memory.
    pub fn line(&mut self, text: &str) -> Result<(), AllocError> {
        if text.len() > LINE_LIMIT {
            write!(self.lines, "    {}.. ({} bytes)\n", front(text), text.len())
        } else {
            write!(self.lines, "    {text}\n")
        }
    }

    /// The line of a row that has no answer. It fails only for want of memory.
    pub fn fault(&mut self, fault: RowFault) -> Result<(), AllocError> {
        write!(self.lines, "    {fault}\n")
    }
}

/// The characters that a long text begins with, as many as have at most `FRONT` bytes.
fn front(text: &str) -> &str {
    for less in 0..4 {
        if let Some(front) = text.get(..FRONT - less) {
            return front;
        }
    }
    ""
}
