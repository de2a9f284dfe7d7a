//! The words of a command line.

ghost use Rattle.std.specs.Prelude.{◌≡◌, ◌≢◌, ◌≤◌, [], ◌∷◌, map, is_some, None, MatchOption, IfSome, IfNone, codes};
ghost use Rattle.std.specs.List.{list_all};
ghost use Rattle.std.specs.String.{string_bytes};
ghost use Rattle.mx_explain.specs.Commands.{process_of, line_of, two_lines, word_of, is_order, AreLines, IsTurns};
ghost use Rattle.mx_explain.specs.Readings.{AsksLines, IsFormOf, IsMeant, IsOneNumberOf, IsSeedOf, TakesTurns};

use crate::orders::{process_of, process_spelled};
use mx_drill::read_number;
use mx_name::cut;
use mx_request::read_decimal;

/// The most processes of an order.
const MOST_TURNS: usize = 4096;

/// How the processes of a run take turns.
#[derive(Clone, Copy)]
pub enum Turns<'a> {
    /// As the threads come, one for each process.
    Threads,
    /// In the order that this number chooses.
    Chosen(u32),
    /// In the order of the processes that these words name.
    Named(&'a [String]),
}

/// A line of a script: its process, and its number in the text of the session.
pub type LineName = (u8, u32);

/// In which form a run is shown.
#[derive(Clone, Copy)]
pub enum Form {
    /// Line by line, one process after another.
    Lines,
    /// In time: the lines of all processes in one order in which they can have happened.
    Story,
    /// Drawn.
    Picture,
    /// As a page for a browser, with the drawing and the lines.
    Page,
}

/// What is shown of a session.
#[derive(Clone, Copy)]
pub enum View<'a> {
    /// That it is one.
    Lint,
    /// Its run, in this form.
    Run(Form, Turns<'a>),
    /// What its lines come to in all orders; where two lines are named, which of their outcomes come together.
    Outcomes(Option<(LineName, LineName)>),
}

/// As what the source is read.
#[derive(Clone, Copy)]
pub enum Reading<'a> {
    /// As a session, of which this is shown.
    Session(View<'a>),
    /// As a text, which is printed without its titles.
    Plain,
}

/// What the words of a command line ask for.
#[derive(Clone, Copy)]
pub enum Command<'a> {
    /// The source is read so.
    Read(Reading<'a>),
    /// The source is read as a session and a printed run of it, and what is wrong with the run is told.
    Breach,
    /// The session of the drill of this number is printed.
    Drill(u32),
    /// How to use the program is printed.
    Help,
    /// The words are not accepted.
    Other,
}

impl<'a> Command<'a> {
    /// What these words ask for. Takes no memory.
    pub fn read(words: &'a [String]) -> Command<'a>
        ensures { IsMeant (map string_bytes words.now) result }
    {
        match first_word(words) {
            Some((name, rest)) => Command::named(name, rest),
            None => Command::Other,
        }
    }

    // What a name and the words after it ask for.
    fn named(name: &str, rest: &'a [String]) -> Command<'a>
        ensures { IsMeant (name.now ∷ map string_bytes rest.now) result }
    {
        if let Some(form) = Form::named(name) {
            return Command::run(name, form, rest);
        }
        Command::of_no_run(name, rest)
    }

    // What the name of a form and the words after it ask for.
    fn run(_name: &str, form: Form, rest: &'a [String]) -> Command<'a>
        requires { _name.now ≡ word_of form }
        ensures { IsMeant (_name.now ∷ map string_bytes rest.now) result }
    {
        match Turns::read(rest) {
            Some(turns) => Command::Read(Reading::Session(View::Run(form, turns))),
            None => Command::Other,
        }
    }

    // What a name asks for that is none of a form, with the words after it.
    fn of_no_run(name: &str, rest: &'a [String]) -> Command<'a>
        requires { IsFormOf name.now None }
        ensures { IsMeant (name.now ∷ map string_bytes rest.now) result }
    {
        match name {
            "outcomes" => match lines_asked(rest) {
                Some(asked) => Command::Read(Reading::Session(View::Outcomes(asked))),
                None => Command::Other,
            },
            "drill" => match one_number(rest) {
                Some(number) => Command::Drill(number),
                None => Command::Other,
            },
            _ => {
                if rest.is_empty() {
                    Command::alone(name)
                } else {
                    Command::Other
                }
            }
        }
    }

    // What a word asks for that stands alone, and that no other may follow or must.
    fn alone(name: &str) -> Command<'a>
        requires form { IsFormOf name.now None }
        requires outcomes { name.now ≢ codes "outcomes" }
        ensures { IsMeant (name.now ∷ []) result }
    {
        match name {
            "lint" => Command::Read(Reading::Session(View::Lint)),
            "plain" => Command::Read(Reading::Plain),
            "breach" => Command::Breach,
            "help" => Command::Help,
            _ => Command::Other,
        }
    }
}

impl Form {
    // The form that this name asks for.
    fn named(name: &str) -> Option<Form>
        ensures { IsFormOf name.now result }
    {
        match name {
            "lines" => Some(Form::Lines),
            "story" => Some(Form::Story),
            "picture" => Some(Form::Picture),
            "page" => Some(Form::Page),
            _ => None,
        }
    }
}

// The first word, and those after it.
fn first_word(words: &[String]) -> Option<(&str, &[String])>
    ensures { MatchOption result (map string_bytes words.now ≡ []) (λ p. map string_bytes words.now ≡ p.0.now ∷ map string_bytes p.1.now) }
{
    match words.split_first() {
        Some((name, rest)) => Some((name.as_str(), rest)),
        None => None,
    }
}

impl<'a> Turns<'a> {
    // How the processes are to take turns, none where these words do not say it.
    fn read(words: &'a [String]) -> Option<Turns<'a>>
        ensures turns { IfSome result (λ turns. TakesTurns turns (map string_bytes words.now)) }
        ensures none { IfNone result (IsTurns (map string_bytes words.now) → ⊥) }
    {
        if words.is_empty() {
            return Some(Turns::Threads);
        }
        if let Some(number) = seed(words) {
            return Some(Turns::Chosen(number));
        }
        if is_order(words) {
            Some(Turns::Named(words))
        } else {
            None
        }
    }
}

// Of which two lines the outcomes are asked for, or that they are of all; none where these words do not say it.
fn lines_asked(words: &[String]) -> Option<Option<(LineName, LineName)>>
    ensures asked { IfSome result (λ asked. AsksLines asked (map string_bytes words.now)) }
    ensures none { IfNone result (AreLines (map string_bytes words.now) → ⊥) }
{
    if words.is_empty() {
        return Some(None);
    }
    match two_lines(words) {
        Some(two) => Some(Some(two)),
        None => None,
    }
}

// The lines that two words name.
fn two_lines(words: &[String]) -> Option<(LineName, LineName)>
    ensures { result ≡ two_lines (map string_bytes words.now) }
{
    match words {
        [word, other] => {
            let one = line_of(word.as_str())?;
            let other = line_of(other.as_str())?;
            Some((one, other))
        }
        _ => None,
    }
}

// The line that a word `P.L` names.
fn line_of(word: &str) -> Option<LineName>
    ensures { result ≡ line_of word.now }
{
    let (process, number) = cut(b'.', word.as_bytes())?;
    let process = process_spelled(process)?;
    let number = read_decimal(number, 7)?;
    Some((process, number))
}

// The number of `seed N`.
fn seed(words: &[String]) -> Option<u32>
    ensures { IsSeedOf (map string_bytes words.now) result }
{
    match first_word(words) {
        Some((name, rest)) if name == "seed" => one_number(rest),
        _ => None,
    }
}

// The number that is the one word.
fn one_number(words: &[String]) -> Option<u32>
    ensures value { IsOneNumberOf (map string_bytes words.now) result }
    ensures most { IfSome result (λ n. n ≤ 999999) }
{
    match words {
        [digits] => read_number(digits.as_str()),
        _ => None,
    }
}

// Whether these words are an order.
fn is_order(words: &[String]) -> bool
    ensures { result ≡ is_order (map string_bytes words.now) }
{
    !words.is_empty() && words.len() <= MOST_TURNS && are_processes(words)
}

// Whether each of these words names a process.
fn are_processes(words: &[String]) -> bool
    ensures { result ≡ list_all (λ word. is_some (process_of word)) (map string_bytes words.now) }
{
    for word in words {
        if process_of(word.as_str()).is_none() {
            return false;
        }
    }
    true
}
