//! Places of the drawing. None is so far out that a number ends: it stays at the last one.

/// A place, from the left and from the top.
#[derive(Clone, Copy)]
pub(crate) struct Position {
    pub(crate) x: u32,
    pub(crate) y: u32,
}

impl Position {
    pub(crate) fn new(x: u32, y: u32) -> Position {
        Position { x, y }
    }

    /// So much to the right.
    pub(crate) fn right(self, by: u32) -> Position {
        Position::new(self.x.saturating_add(by), self.y)
    }

    /// So much to the left.
    pub(crate) fn left(self, by: u32) -> Position {
        Position::new(self.x.saturating_sub(by), self.y)
    }

    /// So much further down.
    pub(crate) fn down(self, by: u32) -> Position {
        Position::new(self.x, self.y.saturating_add(by))
    }

    /// So much further up.
    pub(crate) fn up(self, by: u32) -> Position {
        Position::new(self.x, self.y.saturating_sub(by))
    }

    /// How far it is from here to the right.
    pub(crate) fn width_to(self, right: u32) -> u32 {
        right.saturating_sub(self.x)
    }
}
