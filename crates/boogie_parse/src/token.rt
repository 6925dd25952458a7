/// What a token is.
#[derive(Clone, Copy, Debug, PartialEq, Eq)]
pub enum TokenKind {
    /// A name or a keyword.
    Word,
    /// A run of digits.
    Literal,
    /// An operator or a mark of punctuation.
    Mark,
}
