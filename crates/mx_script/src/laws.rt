//! What follows from the definitions alone.

ghost use Rattle.std.specs.Prelude.{◌≡◌, ℕ, ◌+◌, ◌*◌, ◌<◌, ◌≤◌, List, map, length};
ghost use Rattle.std.specs.List.{All};
ghost use Rattle.mx_script.specs.Sessions.{Outline};
ghost use Rattle.mx_script.specs.SessionTexts.{IsText};

/// A text is that of one session at most.
pub fn each_text_is_of_one_session()
    ensures { (spelled : List ℕ) → (x y : Outline) → IsText spelled x → IsText spelled y → x ≡ y }
{}

/// Each line of a script takes at least six bytes of the text, its newline among them. So in a short text each script has
/// few lines.
pub fn a_line_takes_six_bytes()
    ensures each { (spelled : List ℕ) → (x : Outline) → IsText spelled x → All (λ script. 6 * length script ≤ length spelled) x.scripts }
    ensures few { (spelled : List ℕ) → (x : Outline) → (most : ℕ) → IsText spelled x → length spelled < 6 * (most + 1)
        → All (λ number. number ≤ most) (map length x.scripts) }
{}
