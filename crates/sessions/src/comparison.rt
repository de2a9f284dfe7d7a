//! Where two texts differ.

ghost use Rattle.std.specs.Prelude.{◌≡◌, ◌↔◌, ◌==◌, ◌≤◌, length, IsNone, IfSome};
ghost use Rattle.std.specs.List.{common_prefix_len};
ghost use Rattle.sessions.specs.Differences.{line_at, differing_line};

/// The first line, counted from 1, at which two texts differ, or none where they are the same.
pub fn first_difference(text: &[u8], other: &[u8]) -> Option<usize>
    ensures same { IsNone result ↔ (text.now ≡ other.now) }
    ensures line { IfSome result (λ line. line ≡ differing_line text.now other.now) }
{
    if text == other {
        None
    } else {
        Some(line_at(text, shared_front(text, other)))
    }
}

// How many bytes two texts share at their front.
fn shared_front(text: &[u8], other: &[u8]) -> usize
    ensures shared { result ≡ common_prefix_len (λ byte its_other. byte == its_other) text.now other.now }
    ensures within { result ≤ length text.now }
{
    let mut shared = 0;
    while shared < text.len() && shared < other.len() && text[shared] == other[shared] {
        shared += 1;
    }
    shared
}

// The line, counted from 1, on which the byte at a place stands.
fn line_at(text: &[u8], place: usize) -> usize
    requires { place ≤ length text.now }
    ensures { result ≡ line_at text.now place }
{
    text[..place].iter().filter(|byte| **byte == b'\n').count() + 1
}
