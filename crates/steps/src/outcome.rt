//! What comes of a line beside what is told of it, of a file, and of all files.

ghost use Rattle.std.specs.Prelude.{◌≡◌, ◌≢◌, ◌≤◌, ◌↔◌, All, IsNone, MatchOption};

/// What came of a line beside what is told of it.
#[derive(Clone, Copy, PartialEq, Eq)]
pub enum Compared {
    /// What came is what is told.
    AsTold,
    /// Something else is told.
    Differs,
    /// Nothing is told, so what came is shown.
    Shown,
}

/// What came of a file.
#[derive(Clone, Copy, PartialEq, Eq)]
pub enum Outcome {
    /// Every line came as told.
    AsTold,
    /// One did not.
    Differs,
    /// There is no such file, or one of its lines says nothing.
    NotRead,
}

/// Compares what came with what is told.
pub fn compare(told: Option<&str>, came: &str) -> Compared
    ensures as_told { MatchOption told.entry (result ≢ Compared.AsTold)
        (λ told. (result ≡ Compared.AsTold) ↔ (told.now ≡ came.now)) }
    ensures shown { (result ≡ Compared.Shown) ↔ IsNone told.entry }
{
    match told {
        None => Compared::Shown,
        Some(told) if told == came => Compared::AsTold,
        Some(_) => Compared::Differs,
    }
}

/// What came of a file whose lines came to these.
pub fn outcome_of(lines: &[Compared]) -> Outcome
    ensures as_told { (result ≡ Outcome.AsTold) ↔ All (λ line. line ≢ Compared.Differs) lines.now }
    ensures read { result ≢ Outcome.NotRead }
{
    if lines.iter().all(|line| *line != Compared::Differs) {
        Outcome::AsTold
    } else {
        Outcome::Differs
    }
}

/// The status that says what came of some files: 0 exactly where each came as told, 2 exactly where one was not read, and
/// otherwise 1.
pub fn status_of(outcomes: &[Outcome]) -> u8
    ensures all { (result ≡ 0) ↔ All (λ outcome. outcome ≡ Outcome.AsTold) outcomes.now }
    ensures read { (result ≢ 2) ↔ All (λ outcome. outcome ≢ Outcome.NotRead) outcomes.now }
    ensures other { result ≤ 2 }
{
    if outcomes.iter().any(|outcome| *outcome == Outcome::NotRead) {
        2
    } else if outcomes.iter().all(|outcome| *outcome == Outcome::AsTold) {
        0
    } else {
        1
    }
}
