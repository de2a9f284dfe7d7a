//! The words of a command line.

ghost use Rattle.std.specs.Prelude.{◌≡◌, ◌≤◌, ◌↔◌, [], ◌∷◌, map, IfSome, IsTrue};
ghost use Rattle.std.specs.String.{string_bytes};
ghost use Rattle.mx_run.specs.Reading.{IsDrillOf, IsCommand};

use mx_drill::read_number;

/// What the words of a command line ask for.
#[derive(Clone, Copy, Debug, PartialEq, Eq)]
pub(crate) enum Command {
    /// `run`: the session of the source is run.
    Run,
    /// `drill N`: the drill of this number is run.
    Drill(u32),
    /// `check`: the session of the source is checked, and the run behind it.
    Check,
    /// The words are not accepted.
    Other,
}

impl Command {
    /// What these words ask for. Takes no memory.
    pub(crate) fn read(words: &[String]) -> Command
        ensures { IsCommand (map string_bytes words.now) result }
    {
        if is_word(words, "run") {
            return Command::Run;
        }
        if is_word(words, "check") {
            return Command::Check;
        }
        match drill(words) {
            Some(number) => Command::Drill(number),
            None => Command::Other,
        }
    }
}

// Whether the words are this one word.
fn is_word(words: &[String], word: &str) -> bool
    ensures { IsTrue result ↔ (map string_bytes words.now ≡ word.now ∷ []) }
{
    match words {
        [only] => only.as_str() == word,
        _ => false,
    }
}

// The number of the drill that the words ask for: `drill`, and 1 to 6 decimal digits.
fn drill(words: &[String]) -> Option<u32>
    ensures value { IsDrillOf (map string_bytes words.now) result }
    ensures most { IfSome result (λ n. n ≤ 999999) }
{
    match words {
        [word, digits] if word.as_str() == "drill" => read_number(digits.as_str()),
        _ => None,
    }
}
