//! What comes of a line beside what is told of it.

ghost use Rattle.std.specs.Prelude.{◌≡◌, ◌≢◌, ◌≤◌, ◌↔◌, All, Some};
ghost use Rattle.std.specs.Option.{option_map};

/// What came of a line.
#[derive(Clone, Copy, Debug, PartialEq, Eq)]
pub enum Outcome {
    /// It tells nothing of what comes.
    Untold,
    /// What came is what it tells.
    AsTold,
    /// Something else came, or nothing can come of it.
    Otherwise,
}

/// What is told is what came, where anything came.
pub fn judge(told: &[u8], came: Option<&[u8]>) -> Outcome
    ensures as_told { (result ≡ Outcome.AsTold) ↔ (option_map (λ bytes. bytes.now) came.entry ≡ Some told.now) }
    ensures told { result ≢ Outcome.Untold }
{
    match came {
        Some(came) if came == told => Outcome::AsTold,
        _ => Outcome::Otherwise,
    }
}

/// The status that says what came of all lines: 1 where something came otherwise than told, and 0 exactly where nothing did.
pub fn status_of(outcomes: &[Outcome]) -> u8
    ensures all { (result ≡ 0) ↔ All (λ outcome. outcome ≢ Outcome.Otherwise) outcomes.now }
    ensures other { result ≤ 1 }
{
    if outcomes
        .iter()
        .all(|outcome| *outcome != Outcome::Otherwise)
    {
        0
    } else {
        1
    }
}
