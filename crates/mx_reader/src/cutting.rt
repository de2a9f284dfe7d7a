//! Texts cut behind a front.

ghost use Rattle.std.specs.Prelude.{◌≡◌, MatchOption, None, Some};
ghost use Rattle.mx_script.specs.Fronts.{after};

/// What follows `front` in a text that begins with it.
#[inline(always)]
#[tactic(auto, using(crate::proofs::FrontLaws::none_after))]
pub(crate) fn after<'a>(front: &[u8], text: &'a [u8]) -> Option<&'a [u8]>
    ensures { MatchOption result (after front.now text.now ≡ None) (λ rest. after front.now text.now ≡ Some rest.now) }
{
    if text.len() < front.len() {
        return None;
    }
    for i in 0..front.len() {
        if front[i] != text[i] {
            return None;
        }
    }
    Some(&text[front.len()..])
}
