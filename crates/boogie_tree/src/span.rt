ghost use Rattle.std.specs.Prelude.{◌≡◌};
ghost use Rattle.boogie_tree.specs.Spans.{stands_before};

/// A place in a text. Lines count line feeds from 1, columns count bytes from 1.
#[derive(Clone, Copy, Debug, PartialEq, Eq, Hash)]
pub struct Span {
    pub line: u32,
    pub col: u32,
}

impl Span {
    /// Whether it stands before the other in their text.
    pub fn stands_before(self, other: Span) -> bool
        ensures { result ≡ stands_before self other }
    {
        self.line < other.line || (self.line == other.line && self.col < other.col)
    }
}
