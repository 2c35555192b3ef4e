// What is asked of the moves of a script, of what is read.
ghost use Rattle.pg_runs.specs.Written.{ItemsLaw, ScriptLaw};

/// What tokens of a text are read as has words in the places of words, and tokens with texts of
/// their kinds; its items are fewer than 2^32, and its parts at most 200.
pub fn items_law()
    ensures { ItemsLaw }
{}

/// The same of what a text is read as, which is laid out as its tokens: that it is so `Lexer::new` tells.
pub fn script_law()
    ensures { ScriptLaw }
{}
