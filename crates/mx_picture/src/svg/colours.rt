//! The colours of rings, and of what is written.

/// The colour of a ring: the inner ones are darker.
pub(crate) fn ring_colour(ring: u8) -> &'static str {
    match ring {
        0 => "fill=\"#08306b\"",
        1 => "fill=\"#08519c\"",
        2 => "fill=\"#2171b5\"",
        3 => "fill=\"#4292c6\"",
        4 => "fill=\"#9ecae1\"",
        5 => "fill=\"#c6dbef\"",
        6 => "fill=\"#deebf7\"",
        _ => "fill=\"#f2f7fc\" stroke=\"#c6dbef\"",
    }
}

/// The colour of what is written on a ring's colour.
pub(crate) fn ink_on(ring: u8) -> &'static str {
    match ring {
        0..=3 => "fill=\"#ffffff\"",
        _ => "fill=\"#08306b\"",
    }
}

/// The colour of what is written of something that was denied, refused or lost, where it was.
pub(crate) fn ink_of(bad: bool) -> &'static str {
    if bad {
        "fill=\"#b71c1c\""
    } else {
        "fill=\"#000000\""
    }
}
