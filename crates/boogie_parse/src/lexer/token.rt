use crate::token::TokenKind;
use boogie_tree::{Span, Text};

/// A token where it stands.
#[derive(Drop)]
pub struct Token {
    pub span: Span,
    pub kind: TokenKind,
    /// The slice of the source.
    pub text: Text,
}
