//! Definitions and laws of the spelling of terms and formulas: shapes by a table of strengths, how deep
//! each symbol is nested, the first fault, and a reader with a stack. The crate's functions are its laws.
#![tactic(auto)]

ghost use Rattle.pg_grammar.specs.Laws.{ShapeLaw, NestingLaw, ReadingLaw, PartLaw, SpelledLaw, PrintingLaw};

/// Symbols spell one shape at most.
pub fn shape_law()
    ensures { ShapeLaw }
{}

/// How deep a symbol is nested is settled by the symbols up to it, in an unfinished text too.
pub fn nesting_law()
    ensures { NestingLaw }
{}

/// The reader gives the shape that all symbols are, within the limits on nesting and on their number,
/// or else their first fault; and no other reading is right.
pub fn reading_law()
    ensures { ReadingLaw }
{}

/// The reader gives the longest shape at the front of the symbols, or else the first fault.
pub fn part_law()
    ensures { PartLaw }
{}

/// What is spelled within the limits is read.
pub fn spelled_law()
    ensures { SpelledLaw }
{}

/// What is printed of a tree is a shape that means the tree. So it reads back within the limits.
pub fn printing_law()
    ensures { PrintingLaw }
{}
