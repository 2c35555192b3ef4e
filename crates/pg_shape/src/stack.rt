// The frames that are open.
ghost use Rattle.std.specs.Prelude.{◌≡◌};
ghost use Rattle.pg_grammar.specs.Machine.{nesting as nesting_of};
ghost use Rattle.pg_shape.specs.Frames.{frames as frames_of};

use crate::frame::Frame;
use sqlite_items::Items;

/// The open frames, the innermost last, and how deep an operand in them is nested.
#[derive(Drop)]
pub struct Stack<'a> {
    pub frames: Items<Frame<'a>>,
    pub nesting: u64,
    ghost counted: { nesting ≡ nesting_of (frames_of frames) },
}
