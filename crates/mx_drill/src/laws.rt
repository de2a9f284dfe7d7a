//! What follows from the definitions alone.

ghost use Rattle.std.specs.Prelude.{ℕ, ◌≤◌, map, length};
ghost use Rattle.std.specs.List.{All};
ghost use Rattle.mx_script.specs.SessionTexts.{IsText, session_text};
ghost use Rattle.mx_drill.specs.Drills.{drill_session};

/// The text of a drill is that of a session, and so it is read as this drill.
pub fn each_drill_has_its_text()
    ensures { (number : ℕ) → number ≤ 999999 → IsText (session_text (drill_session number)) (drill_session number) }
{}

/// Each script of a drill has few lines.
pub fn each_drill_is_short()
    ensures { (number : ℕ) → All (λ lines. lines ≤ 600) (map length (drill_session number).scripts) }
{}
