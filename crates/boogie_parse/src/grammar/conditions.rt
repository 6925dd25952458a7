//! Arguments, guards, conditions and invariants.

ghost use Rattle.std.specs.Prelude.{◌≡◌};
ghost use Rattle.boogie_tree.specs.View as view;
ghost use Rattle.boogie_parse.specs.Reading.ListReading as spec;
ghost use Rattle.boogie_parse.specs.Reading.ListViews.{Gives, found, found_if, items_as};

use super::blocks::there;
use super::lists::seen;
use super::parser::Parser;
use super::variables::PARENTHESES;
use crate::fault::Fault;
use crate::symbols::{Fixed, Symbol};
use boogie_tree::{Expr, Guard, Inv, Span};

impl Parser {
    /// The arguments of a call.
    #[tactic(auto, unfolding(crate::specs::Reading::ListReading::arguments_at))]
    pub(crate) fn arguments<'a>(
        &self,
        symbols: &'a [Symbol],
    ) -> Result<(Vec<Expr>, &'a [Symbol]), Fault>
        ensures { Gives (found (items_as view.expression)) result
            (spec.arguments_at (spec.expression_at self.now.end) self.now.end 200 symbols.now) }
    {
        let (parentheses, rest) = self.opened(Fixed::OpenParenthesis, PARENTHESES, symbols)?;
        if let Some((_, rest)) = seen(Fixed::CloseParenthesis, rest) {
            return Ok((Vec::new(self.alloc), rest));
        }
        let (arguments, rest) = self.expressions(parentheses, rest)?;
        self.ended_by(Fixed::CloseParenthesis, arguments, rest)
    }

    /// The guard of a branch or a loop.
    #[tactic(auto, unfolding(crate::specs::Reading::ListReading::guard_at))]
    pub(crate) fn guard<'a>(&self, symbols: &'a [Symbol]) -> Result<(Guard, &'a [Symbol]), Fault>
        ensures { Gives (found view.guard) result
            (spec.guard_at (spec.expression_at self.now.end) self.now.end 200 symbols.now) }
    {
        let (parentheses, rest) = self.opened(Fixed::OpenParenthesis, PARENTHESES, symbols)?;
        if let Some((_, rest)) = seen(Fixed::Star, rest) {
            return self.ended_by(Fixed::CloseParenthesis, Guard::Any, rest);
        }
        let (condition, rest) = self.shallow_expression(parentheses, rest)?;
        self.ended_by(Fixed::CloseParenthesis, Guard::Cond(condition), rest)
    }

    /// An expression, up to its semicolon.
    #[tactic(auto, unfolding(crate::specs::Reading::ListReading::claim_at))]
    pub(crate) fn claim<'a>(&self, symbols: &'a [Symbol]) -> Result<(Expr, &'a [Symbol]), Fault>
        ensures { Gives (found view.expression) result
            (spec.claim_at (spec.expression_at self.now.end) self.now.end 200 symbols.now) }
    {
        let (expression, rest) = self.shallow_expression(PARENTHESES, symbols)?;
        self.ended_by(Fixed::Semicolon, expression, rest)
    }

    /// A condition, behind its word that stands there.
    #[tactic(auto, unfolding(crate::specs::Reading::ListReading::condition_behind))]
    pub(crate) fn condition<'a>(
        &self,
        free: bool,
        span: Span,
        symbols: &'a [Symbol],
    ) -> Result<(Inv, &'a [Symbol]), Fault>
        ensures { Gives (found view.invariant) result
            (spec.condition_behind (spec.expression_at self.now.end) self.now.end 200 free (record { value = span; rest = symbols.now })) }
    {
        let (cond, rest) = self.claim(symbols)?;
        Ok((Inv { span, free, cond }, rest))
    }

    /// The same, which says that the condition stands there.
    fn condition_there<'a>(
        &self,
        free: bool,
        span: Span,
        symbols: &'a [Symbol],
    ) -> Result<Option<(Inv, &'a [Symbol])>, Fault>
        ensures { Gives (found_if view.invariant) result
            (spec.there (spec.condition_behind (spec.expression_at self.now.end) self.now.end 200 free (record { value = span; rest = symbols.now }))) }
    {
        there(self.condition(free, span, symbols))
    }

    /// An invariant, if one stands there.
    #[tactic(auto, unfolding(crate::specs::Reading::ListReading::invariant_at))]
    fn invariant<'a>(&self, symbols: &'a [Symbol]) -> Result<Option<(Inv, &'a [Symbol])>, Fault>
        ensures { Gives (found_if view.invariant) result
            (spec.invariant_at (spec.expression_at self.now.end) self.now.end 200 symbols.now) }
    {
        if let Some((_, rest)) = seen(Fixed::Free, symbols) {
            let (span, rest) = self.behind(Fixed::Invariant, rest)?;
            return self.condition_there(true, span, rest);
        }
        match seen(Fixed::Invariant, symbols) {
            None => Ok(None),
            Some((span, rest)) => self.condition_there(false, span, rest),
        }
    }

    /// The invariants that stand there.
    pub(crate) fn invariants<'a>(
        &self,
        symbols: &'a [Symbol],
    ) -> Result<(Vec<Inv>, &'a [Symbol]), Fault>
        ensures { Gives (found (items_as view.invariant)) result
            (spec.invariants_at (spec.expression_at self.now.end) self.now.end 200 symbols.now) }
    {
        let mut invariants = Vec::new(self.alloc);
        let mut rest = symbols;
        for _turn in 0..symbols.len() {
            // (by `?` a level of blocks would hold the condition twice)
            match self.invariant(rest) {
                Err(fault) => return Err(fault),
                Ok(None) => return Ok((invariants, rest)),
                Ok(Some((invariant, behind))) => {
                    invariants.push(invariant)?;
                    rest = behind;
                }
            }
        }
        Ok((invariants, rest))
    }
}
