/// An assertion: its number, from 1, and the line of its keyword.
#[derive(Clone, Copy, Debug, PartialEq, Eq)]
pub struct AssertId {
    pub number: u32,
    pub line: u32,
}

/// An assertion with the place that its failures lead to.
#[derive(Clone, Copy, Debug, PartialEq, Eq)]
pub struct Site {
    pub id: AssertId,
    pub place: u32,
}
