//! The operators of expressions, and the marks around them.

ghost use Rattle.std.specs.Prelude.{◌≡◌};
ghost use Rattle.boogie_parse.specs.Reading.ExpressionReading as reading;
ghost use Rattle.boogie_parse.specs.Ties.ExpressionViews.{seen, behind};

use crate::symbols::{Fixed, Sign, Symbol};
use boogie_tree::{Level, Op, Span};

/// A chain of operations that groups to the left.
#[derive(Clone, Copy)]
pub(crate) enum Chain {
    Equivalence,
    Conjunction,
    Disjunction,
    Sum,
    Product,
}

/// An operator before its operand.
#[derive(Clone, Copy)]
pub(crate) enum Prefix {
    Not,
    Neg,
}

impl Chain {
    /// The level of the chain's operators.
    pub(crate) fn level(self) -> Level
        ensures { result ≡ reading.level_of_chain self }
    {
        match self {
            Chain::Equivalence => Level::Equivalence,
            Chain::Conjunction => Level::Conjunction,
            Chain::Disjunction => Level::Disjunction,
            Chain::Sum => Level::Sum,
            Chain::Product => Level::Product,
        }
    }
}

/// The binary operator of that level that is spelled so.
fn operator(level: Level, fixed: Fixed) -> Option<Op>
    ensures { result ≡ reading.joins level fixed }
{
    match (level, fixed) {
        (Level::Equivalence, Fixed::Iff) => Some(Op::Iff),
        (Level::Implication, Fixed::Implies) => Some(Op::Implies),
        (Level::Conjunction, Fixed::And) => Some(Op::And),
        (Level::Disjunction, Fixed::Or) => Some(Op::Or),
        (Level::Comparison, Fixed::Equal) => Some(Op::Eq),
        (Level::Comparison, Fixed::Unequal) => Some(Op::Ne),
        (Level::Comparison, Fixed::Less) => Some(Op::Lt),
        (Level::Comparison, Fixed::AtMost) => Some(Op::Le),
        (Level::Comparison, Fixed::Greater) => Some(Op::Gt),
        (Level::Comparison, Fixed::AtLeast) => Some(Op::Ge),
        (Level::Sum, Fixed::Plus) => Some(Op::Add),
        (Level::Sum, Fixed::Minus) => Some(Op::Sub),
        (Level::Product, Fixed::Star) => Some(Op::Mul),
        (Level::Product, Fixed::Div) => Some(Op::Div),
        (Level::Product, Fixed::Mod) => Some(Op::Mod),
        _ => None,
    }
}

/// The binary operator of that level that the symbols begin with, its place, and the symbols behind it.
pub(crate) fn infix_at<'a>(level: Level, symbols: &'a [Symbol]) -> Option<(Op, Span, &'a [Symbol])>
    ensures { seen result ≡ reading.infix_at level symbols.entry.now }
{
    match symbols {
        [first, rest @ ..] => match &first.sign {
            Sign::Fixed(fixed) => match operator(level, *fixed) {
                Some(op) => Some((op, first.span, rest)),
                None => None,
            },
            Sign::Number(_) | Sign::Name(_) => None,
        },
        [] => None,
    }
}

/// The `!` or `-` that the symbols begin with, its place, and the symbols behind it.
pub(crate) fn prefix_at<'a>(symbols: &'a [Symbol]) -> Option<(Prefix, Span, &'a [Symbol])>
    ensures { seen result ≡ reading.prefix_at symbols.entry.now }
{
    match symbols {
        [first, rest @ ..] => match &first.sign {
            Sign::Fixed(Fixed::Not) => Some((Prefix::Not, first.span, rest)),
            Sign::Fixed(Fixed::Minus) => Some((Prefix::Neg, first.span, rest)),
            _ => None,
        },
        [] => None,
    }
}

/// The symbols behind the `(` that they begin with.
pub(crate) fn behind_open<'a>(symbols: &'a [Symbol]) -> Option<&'a [Symbol]>
    ensures { behind result ≡ reading.behind_sign reading.opens symbols.entry.now }
{
    match symbols {
        [first, rest @ ..] => match &first.sign {
            Sign::Fixed(Fixed::OpenParenthesis) => Some(rest),
            _ => None,
        },
        [] => None,
    }
}

/// The symbols behind the `)` that they begin with.
pub(crate) fn behind_close<'a>(symbols: &'a [Symbol]) -> Option<&'a [Symbol]>
    ensures { behind result ≡ reading.behind_sign reading.closes symbols.entry.now }
{
    match symbols {
        [first, rest @ ..] => match &first.sign {
            Sign::Fixed(Fixed::CloseParenthesis) => Some(rest),
            _ => None,
        },
        [] => None,
    }
}
