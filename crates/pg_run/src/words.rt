// The words of the command line.
ghost use Rattle.std.specs.Prelude.{◌≡◌, MatchOption, Some, None};
ghost use Rattle.pg_run.specs.Words.{is_file_name, game_name};

/// The name of the game's file, where the words are `play` and a file's name, and None for all other words
/// ("Words" in docs/COMMAND-LINE.md).
pub fn game_name<'a>(words: &[&'a str]) -> Option<&'a str>
    ensures { MatchOption result (game_name words.now ≡ None) (λ name. game_name words.now ≡ Some name.now) }
{
    match words {
        [command, name] => {
            if *command == "play" && is_file_name(name) {
                Some(*name)
            } else {
                None
            }
        }
        _ => None,
    }
}

/// A file's name is not empty and does not begin with `-`.
fn is_file_name(word: &str) -> bool
    ensures { result ≡ is_file_name word.now }
{
    match word.as_bytes() {
        [] => false,
        [first, ..] => *first != b'-',
    }
}
