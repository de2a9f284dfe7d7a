//! What the command line asks for.

/// So many references of one kind, through the associative memory or by the descriptor word.
#[derive(Clone, Copy, Debug)]
pub struct Asked {
    /// Whether the associative memory is asked.
    pub through_cam: bool,
    /// Whether they write.
    pub writes: bool,
    /// How many.
    pub count: u32,
}

/// What three words ask for; `None` where they are no three such words.
pub fn asked_of(words: &[String]) -> Option<Asked> {
    let [way, kind, count] = words else {
        return None;
    };
    let through_cam = match way.as_str() {
        "cam" => true,
        "word" => false,
        _ => return None,
    };
    let writes = match kind.as_str() {
        "write" => true,
        "read" => false,
        _ => return None,
    };
    let count = count.parse::<u32>().ok()?;
    Some(Asked {
        through_cam,
        writes,
        count,
    })
}
