//! Lists with commas between their items: names, expressions, variables.

ghost use Rattle.std.specs.Prelude.{◌≡◌};
ghost use Rattle.boogie_tree.specs.View as view;
ghost use Rattle.boogie_parse.specs.Reading.ListReading as spec;
ghost use Rattle.boogie_parse.specs.Reading.ListViews.{Gives, found, found_if, same, items, items_as};

use super::parser::{Parser, past_limit};
use crate::fault::{Fault, Which};
use crate::symbols::{Fixed, Sign, Symbol};
use boogie_tree::{Expr, Name, Span};

/// Expressions are at most so deep.
const DEPTH: u8 = 200;

/// Whether a symbol is that fixed word or mark.
fn says(fixed: Fixed, sign: &Sign) -> bool
    ensures { result ≡ spec.says fixed sign.now }
{
    match sign {
        Sign::Fixed(word) => *word == fixed,
        Sign::Number(_) | Sign::Name(_) => false,
    }
}

/// Where that fixed word or mark stands, if it stands first, and the symbols behind it.
#[tactic(auto, unfolding(crate::specs::Reading::ListReading::seen))]
pub(crate) fn seen<'a>(fixed: Fixed, symbols: &'a [Symbol]) -> Option<(Span, &'a [Symbol])>
    ensures { found_if same result ≡ spec.seen fixed symbols.now }
{
    match symbols {
        [first, rest @ ..] if says(fixed, &first.sign) => Some((first.span, rest)),
        _ => None,
    }
}

impl Parser {
    /// Where that fixed word or mark stands, which must stand first, and the symbols behind it.
    #[tactic(auto, unfolding(crate::specs::Reading::ListReading::behind))]
    pub(crate) fn behind<'a>(
        &self,
        fixed: Fixed,
        symbols: &'a [Symbol],
    ) -> Result<(Span, &'a [Symbol]), Fault>
        ensures { Gives (found same) result (spec.behind self.now.end fixed symbols.now) }
    {
        seen(fixed, symbols).ok_or(self.refused(symbols))
    }

    /// A value that was read, where that fixed word or mark ends it.
    pub(crate) fn ended_by<'a, X: Drop>(
        &self,
        mark: Fixed,
        value: X,
        symbols: &'a [Symbol],
    ) -> Result<(X, &'a [Symbol]), Fault>
        ensures { Gives (found same) result (spec.◌>>=◌ (spec.behind self.now.end mark symbols.now) (λ s. spec.read value s.rest)) }
    {
        let (_, rest) = self.behind(mark, symbols)?;
        Ok((value, rest))
    }

    /// A name.
    #[tactic(auto, unfolding(crate::specs::Reading::ListReading::name_at))]
    pub(crate) fn name<'a>(&self, symbols: &'a [Symbol]) -> Result<(Name, &'a [Symbol]), Fault>
        ensures { Gives (found same) result (spec.name_at self.now.end symbols.now) }
    {
        match symbols {
            [
                Symbol {
                    span,
                    sign: Sign::Name(text),
                },
                rest @ ..,
            ] => {
                let name = Name {
                    span: *span,
                    text: text.copy()?,
                };
                Ok((name, rest))
            }
            _ => Err(self.refused(symbols)),
        }
    }

    /// A name, if there is room for one more.
    #[tactic(auto, unfolding(crate::specs::Reading::ListReading::new_name))]
    fn new_name<'a>(
        &self,
        room: usize,
        symbols: &'a [Symbol],
    ) -> Result<(Name, &'a [Symbol]), Fault>
        ensures { Gives (found same) result (spec.new_name self.now.end room symbols.now) }
    {
        let (name, rest) = self.name(symbols)?;
        if room == 0 {
            return Err(past_limit(Which::Variables, name.span));
        }
        Ok((name, rest))
    }

    /// Names with commas between them, so many at most.
    pub(crate) fn names<'a>(
        &self,
        room: usize,
        symbols: &'a [Symbol],
    ) -> Result<(Vec<Name>, &'a [Symbol]), Fault>
        ensures { Gives (found items) result (spec.names_at self.now.end room symbols.now) }
    {
        let mut names = Vec::new(self.alloc);
        let mut rest = symbols;
        for _turn in 0..symbols.len() {
            let (name, behind) = self.new_name(room.saturating_sub(names.len()), rest)?;
            names.push(name)?;
            match seen(Fixed::Comma, behind) {
                None => return Ok((names, behind)),
                Some((_, next)) => rest = next,
            }
        }
        Err(self.refused(rest))
    }

    /// An expression that is at most 200 deep.
    #[tactic(auto, unfolding(crate::specs::Reading::ListReading::expression_at))]
    pub(crate) fn shallow_expression<'a>(
        &self,
        parentheses: u8,
        symbols: &'a [Symbol],
    ) -> Result<(Expr, &'a [Symbol]), Fault>
        ensures { Gives (found view.expression) result
            (spec.expression_at self.now.end parentheses symbols.now) }
    {
        let found = self.expression(parentheses, DEPTH, symbols)?;
        Ok((Box::into_inner(found.expr), found.rest))
    }

    /// How many parentheses or braces may be opened behind the one that must stand first, where so many may.
    #[tactic(auto, unfolding(crate::specs::Reading::ListReading::opened))]
    pub(crate) fn opened<'a>(
        &self,
        mark: Fixed,
        room: u8,
        symbols: &'a [Symbol],
    ) -> Result<(u8, &'a [Symbol]), Fault>
        ensures { Gives (found same) result (spec.opened self.now.end mark room symbols.now) }
    {
        let (span, rest) = self.behind(mark, symbols)?;
        if room == 0 {
            return Err(past_limit(Which::Nesting, span));
        }
        Ok((room - 1, rest))
    }

    /// Expressions with commas between them.
    pub(crate) fn expressions<'a>(
        &self,
        parentheses: u8,
        symbols: &'a [Symbol],
    ) -> Result<(Vec<Expr>, &'a [Symbol]), Fault>
        ensures { Gives (found (items_as view.expression)) result
            (spec.expressions_at (spec.expression_at self.now.end) self.now.end parentheses symbols.now) }
    {
        let mut expressions = Vec::new(self.alloc);
        let mut rest = symbols;
        for _turn in 0..symbols.len() {
            let (expression, behind) = self.shallow_expression(parentheses, rest)?;
            expressions.push(expression)?;
            match seen(Fixed::Comma, behind) {
                None => return Ok((expressions, behind)),
                Some((_, next)) => rest = next,
            }
        }
        Err(self.refused(rest))
    }

    /// Names up to their semicolon.
    #[tactic(auto, unfolding(crate::specs::Reading::ListReading::listed_names))]
    pub(crate) fn listed_names<'a>(
        &self,
        symbols: &'a [Symbol],
    ) -> Result<(Vec<Name>, &'a [Symbol]), Fault>
        ensures { Gives (found items) result (spec.listed_names self.now.end symbols.now) }
    {
        let (names, rest) = self.names(symbols.len(), symbols)?;
        self.ended_by(Fixed::Semicolon, names, rest)
    }
}
