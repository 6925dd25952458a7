//! Tokens as the grammar sees them.

ghost use Rattle.std.specs.Prelude.{◌≡◌, ◌<◌, ◌^◌, pos, map, IfOk};
ghost use Rattle.std.specs.List.{AllByRecursion};
ghost use Rattle.std.specs.Str.Parse.{digits_value};
ghost use Rattle.boogie_parse.specs.Lexing.Symbols as spec;
ghost use Rattle.boogie_parse.specs.declared.symbols.Sign.TheVariants.{Number};

use crate::lexer::Token;
use crate::literals::literal;
use crate::token::TokenKind;
use boogie_tree::{Span, Text};
use std::alloc::{AllocError, Global};

/// A word or a mark that the language fixes.
#[derive(Clone, Copy, PartialEq, Eq)]
pub(crate) enum Fixed {
    Const,
    Var,
    Axiom,
    Procedure,
    Implementation,
    Returns,
    Requires,
    Ensures,
    Modifies,
    Free,
    Invariant,
    Assert,
    Assume,
    Havoc,
    Call,
    If,
    Else,
    While,
    Break,
    Goto,
    Return,
    True,
    False,
    Old,
    Int,
    Bool,
    Div,
    Mod,
    OpenParenthesis,
    CloseParenthesis,
    OpenBrace,
    CloseBrace,
    Comma,
    Semicolon,
    Colon,
    Becomes,
    Star,
    Plus,
    Minus,
    Not,
    Equal,
    Unequal,
    Less,
    AtMost,
    Greater,
    AtLeast,
    And,
    Or,
    Implies,
    Iff,
}

/// What a token says to the grammar.
#[derive(Drop)]
pub(crate) enum Sign {
    Fixed(Fixed),
    Number(i128),
    Name(Text),
}

/// A token as the grammar sees it, where it stands.
#[derive(Drop)]
pub(crate) struct Symbol {
    pub span: Span,
    pub sign: Sign,
}

/// The spellings of the fixed words and marks.
const SPELLINGS: [(&[u8], Fixed); 50] = [
    (b"const", Fixed::Const),
    (b"var", Fixed::Var),
    (b"axiom", Fixed::Axiom),
    (b"procedure", Fixed::Procedure),
    (b"implementation", Fixed::Implementation),
    (b"returns", Fixed::Returns),
    (b"requires", Fixed::Requires),
    (b"ensures", Fixed::Ensures),
    (b"modifies", Fixed::Modifies),
    (b"free", Fixed::Free),
    (b"invariant", Fixed::Invariant),
    (b"assert", Fixed::Assert),
    (b"assume", Fixed::Assume),
    (b"havoc", Fixed::Havoc),
    (b"call", Fixed::Call),
    (b"if", Fixed::If),
    (b"else", Fixed::Else),
    (b"while", Fixed::While),
    (b"break", Fixed::Break),
    (b"goto", Fixed::Goto),
    (b"return", Fixed::Return),
    (b"true", Fixed::True),
    (b"false", Fixed::False),
    (b"old", Fixed::Old),
    (b"int", Fixed::Int),
    (b"bool", Fixed::Bool),
    (b"div", Fixed::Div),
    (b"mod", Fixed::Mod),
    (b"(", Fixed::OpenParenthesis),
    (b")", Fixed::CloseParenthesis),
    (b"{", Fixed::OpenBrace),
    (b"}", Fixed::CloseBrace),
    (b",", Fixed::Comma),
    (b";", Fixed::Semicolon),
    (b":", Fixed::Colon),
    (b":=", Fixed::Becomes),
    (b"*", Fixed::Star),
    (b"+", Fixed::Plus),
    (b"-", Fixed::Minus),
    (b"!", Fixed::Not),
    (b"==", Fixed::Equal),
    (b"!=", Fixed::Unequal),
    (b"<", Fixed::Less),
    (b"<=", Fixed::AtMost),
    (b">", Fixed::Greater),
    (b">=", Fixed::AtLeast),
    (b"&&", Fixed::And),
    (b"||", Fixed::Or),
    (b"==>", Fixed::Implies),
    (b"<==>", Fixed::Iff),
];

/// The word or mark that is spelled so, if one is.
fn fixed_of(text: &[u8]) -> Option<Fixed>
    ensures { result ≡ spec.spelled text.now spec.spellings }
{
    let (_, fixed) = SPELLINGS.iter().find(|row| text == row.0)?;
    Some(*fixed)
}

/// A word or a mark. A word that is not fixed is a name.
fn fixed_or_name(text: Text) -> Sign
    ensures { result ≡ spec.fixed_or_name text (spec.spelled text spec.spellings) }
{
    match fixed_of(text.bytes()) {
        Some(fixed) => Sign::Fixed(fixed),
        None => Sign::Name(text),
    }
}

/// The number that the digits count.
fn number(text: &Text) -> Sign
    requires { digits_value 10 text.now < 2 ^ 127 }
    ensures { result ≡ Number (pos (digits_value 10 text.now)) }
{
    // The literal fits, so that there is a value.
    let value = literal(text.bytes()).unwrap_or(0);
    Sign::Number(value as i128)
}

/// What a token says to the grammar. A name is moved, not copied.
fn symbol_of(token: Token) -> Symbol
    requires { spec.LiteralFits token }
    ensures { result ≡ spec.symbol token }
{
    let Token { span, kind, text } = token;
    let sign = match kind {
        TokenKind::Literal => number(&text),
        TokenKind::Word | TokenKind::Mark => fixed_or_name(text),
    };
    Symbol { span, sign }
}

/// Tokens as the grammar sees them, in order.
pub(crate) fn symbols(alloc: Global, tokens: Vec<Token>) -> Result<Vec<Symbol>, AllocError>
    requires { AllByRecursion spec.LiteralFits tokens.items }
    ensures { IfOk result (λ ss. ss.items ≡ map spec.symbol tokens.items) }
{
    let mut symbols = Vec::new(alloc);
    for token in tokens {
        symbols.push(symbol_of(token))?;
    }
    Ok(symbols)
}
