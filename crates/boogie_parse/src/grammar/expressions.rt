//! Reads expressions: from the symbols to the expression that they begin with and the symbols behind it.

mod laws;
pub(crate) mod operators;

ghost use Rattle.std.specs.Prelude.{◌≡◌, ◌<◌, ◌≤◌, ◌-◌, nat_eq, nat_le, IfOk};
ghost use Rattle.boogie_tree.specs.declared.level.Level.TheVariants as levels;
ghost use Rattle.boogie_parse.specs.Rules.GrammarLimits.{depth as depth_of};
ghost use Rattle.boogie_parse.specs.Reading.Outcomes.{place_or};
ghost use Rattle.boogie_parse.specs.Reading.ExpressionReading as reading;
ghost use Rattle.boogie_parse.specs.Ties.ExpressionViews.{tree, Gives, HasHeight};

use super::found::Found;
use super::parser::{Parser, past_limit};
use crate::fault::{Fault, Which};
use crate::symbols::{Fixed, Sign, Symbol};
use boogie_tree::{ExprKind, Level, Span};
use operators::{Chain, Prefix, behind_close, behind_open, infix_at, prefix_at};

impl Parser {
    /// The place of the first symbol, or just past the text's end.
    pub(crate) fn place(&self, symbols: &[Symbol]) -> Span
        ensures { result ≡ place_or self.now.end symbols.now }
    {
        match symbols {
            [first, ..] => first.span,
            [] => self.end,
        }
    }

    /// The expression that the symbols begin with. At most that many parentheses are open in it at once, and it is at most that deep.
    pub(crate) fn expression<'a>(
        &self,
        parentheses: u8,
        depth: u8,
        symbols: &'a [Symbol],
    ) -> Result<Found<'a>, Fault>
        ensures gives { Gives result (reading.expression self.now.end parentheses depth symbols.entry.now) }
        ensures height { IfOk result HasHeight }
        ensures low { IfOk result (λ f. f.height ≤ depth) }
    {
        let first = self.implication(parentheses, depth, symbols)?;
        self.chain_from(
            Chain::Equivalence,
            self.place(symbols),
            parentheses,
            depth,
            first,
        )
    }

    /// The chain that goes on from its first operand.
    #[cycle(expressions)]
    fn chain_from<'a>(
        &self,
        chain: Chain,
        place: Span,
        parentheses: u8,
        depth: u8,
        first: Found<'a>,
    ) -> Result<Found<'a>, Fault>
        requires first_low { first.height ≤ depth }
        requires first_height { HasHeight first }
        ensures gives { Gives result (reading.chain_behind chain (reading.operand self.now.end (reading.inside self.now.end parentheses) chain) place depth depth (tree first.entry) first.entry.rest.now) }
        ensures height { IfOk result HasHeight }
        ensures low { IfOk result (λ f. f.height ≤ depth) }
    {
        let mut left = first;
        for _turn in 0..depth {
            let Some((op, at, rest)) = infix_at(chain.level(), left.rest) else {
                return Ok(left);
            };
            if left.height >= depth {
                return Err(past_limit(Which::Nesting, at));
            }
            let right = self.operand(chain, parentheses, depth - 1, rest)?;
            left = self.operation(place, op, left, right)?;
        }
        match infix_at(chain.level(), left.rest) {
            None => Ok(left),
            Some((_op, at, _rest)) => Err(past_limit(Which::Nesting, at)),
        }
    }

    /// An operand of a chain.
    #[cycle(expressions)]
    fn operand<'a>(
        &self,
        chain: Chain,
        parentheses: u8,
        depth: u8,
        symbols: &'a [Symbol],
    ) -> Result<Found<'a>, Fault>
        ensures gives { Gives result (reading.operand self.now.end (reading.inside self.now.end parentheses) chain depth symbols.entry.now) }
        ensures height { IfOk result HasHeight }
        ensures low { IfOk result (λ f. f.height ≤ depth) }
    {
        match chain {
            Chain::Equivalence => self.implication(parentheses, depth, symbols),
            Chain::Conjunction => self.comparison(parentheses, depth, symbols),
            Chain::Disjunction => self.comparison(parentheses, depth, symbols),
            Chain::Sum => self.product(parentheses, depth, symbols),
            Chain::Product => self.unary(parentheses, depth, symbols),
        }
    }

    /// `==>` groups to the right. Its first operand is read level by level, each from what the levels that bind more have read, so that
    /// parentheses inside parentheses take little of the stack.
    #[cycle(expressions)]
    fn implication<'a>(
        &self,
        parentheses: u8,
        depth: u8,
        symbols: &'a [Symbol],
    ) -> Result<Found<'a>, Fault>
        ensures gives { Gives result (reading.implication self.now.end (reading.inside self.now.end parentheses) depth symbols.entry.now) }
        ensures height { IfOk result HasHeight }
        ensures low { IfOk result (λ f. f.height ≤ depth) }
    {
        let place = self.place(symbols);
        let first = self.unary(parentheses, depth, symbols)?;
        let product = self.chain_from(Chain::Product, place, parentheses, depth, first)?;
        let sum = self.chain_from(Chain::Sum, place, parentheses, depth, product)?;
        let comparison = self.compared(place, parentheses, depth, sum)?;
        let junction = self.joined(place, parentheses, depth, comparison)?;
        self.implied(place, parentheses, depth, junction)
    }

    /// What is behind the first operand of `==>`, which begins at that place: nothing, or the operator and the other operand.
    #[cycle(expressions)]
    fn implied<'a>(
        &self,
        place: Span,
        parentheses: u8,
        depth: u8,
        left: Found<'a>,
    ) -> Result<Found<'a>, Fault>
        requires left_low { left.height ≤ depth }
        requires left_height { HasHeight left }
        ensures gives { Gives result (reading.unless_alone (tree left.entry) left.entry.rest.now (λ o at m. reading.unless_deep (nat_le depth (depth_of (tree left.entry))) at (reading.binary_operation place o (tree left.entry) (reading.implication self.now.end (reading.inside self.now.end parentheses) (depth - 1) m))) (reading.infix_at levels.Implication left.entry.rest.now)) }
        ensures height { IfOk result HasHeight }
        ensures low { IfOk result (λ f. f.height ≤ depth) }
    {
        let Some((op, at, rest)) = infix_at(Level::Implication, left.rest) else {
            return Ok(left);
        };
        if left.height >= depth {
            return Err(past_limit(Which::Nesting, at));
        }
        let right = self.implication(parentheses, depth - 1, rest)?;
        self.operation(place, op, left, right)
    }

    /// A chain of `&&` or one of `||`, as its first operator says, from its first operand on, which begins at that place.
    #[cycle(expressions)]
    fn joined<'a>(
        &self,
        place: Span,
        parentheses: u8,
        depth: u8,
        first: Found<'a>,
    ) -> Result<Found<'a>, Fault>
        requires first_low { first.height ≤ depth }
        requires first_height { HasHeight first }
        ensures gives { Gives result (reading.chain_behind (reading.junction_by (reading.infix_at levels.Disjunction first.entry.rest.now)) (reading.comparison self.now.end (reading.inside self.now.end parentheses)) place depth depth (tree first.entry) first.entry.rest.now) }
        ensures height { IfOk result HasHeight }
        ensures low { IfOk result (λ f. f.height ≤ depth) }
    {
        match infix_at(Level::Disjunction, first.rest) {
            None => self.chain_from(Chain::Conjunction, place, parentheses, depth, first),
            Some(_) => self.chain_from(Chain::Disjunction, place, parentheses, depth, first),
        }
    }

    /// One comparison at most.
    #[cycle(expressions)]
    fn comparison<'a>(
        &self,
        parentheses: u8,
        depth: u8,
        symbols: &'a [Symbol],
    ) -> Result<Found<'a>, Fault>
        ensures gives { Gives result (reading.comparison self.now.end (reading.inside self.now.end parentheses) depth symbols.entry.now) }
        ensures height { IfOk result HasHeight }
        ensures low { IfOk result (λ f. f.height ≤ depth) }
    {
        let place = self.place(symbols);
        let first = self.unary(parentheses, depth, symbols)?;
        let product = self.chain_from(Chain::Product, place, parentheses, depth, first)?;
        let sum = self.chain_from(Chain::Sum, place, parentheses, depth, product)?;
        self.compared(place, parentheses, depth, sum)
    }

    /// What is behind the first operand of a comparison, which begins at that place: nothing, or the operator and the other operand.
    #[cycle(expressions)]
    fn compared<'a>(
        &self,
        place: Span,
        parentheses: u8,
        depth: u8,
        left: Found<'a>,
    ) -> Result<Found<'a>, Fault>
        requires left_low { left.height ≤ depth }
        requires left_height { HasHeight left }
        ensures gives { Gives result (reading.unless_alone (tree left.entry) left.entry.rest.now (λ o at m. reading.unless_deep (nat_le depth (depth_of (tree left.entry))) at (reading.binary_operation place o (tree left.entry) (reading.sum self.now.end (reading.inside self.now.end parentheses) (depth - 1) m))) (reading.infix_at levels.Comparison left.entry.rest.now)) }
        ensures height { IfOk result HasHeight }
        ensures low { IfOk result (λ f. f.height ≤ depth) }
    {
        let Some((op, at, rest)) = infix_at(Level::Comparison, left.rest) else {
            return Ok(left);
        };
        if left.height >= depth {
            return Err(past_limit(Which::Nesting, at));
        }
        let right = self.sum(parentheses, depth - 1, rest)?;
        self.operation(place, op, left, right)
    }

    /// Operands with `+` and binary `-` between them.
    #[cycle(expressions)]
    fn sum<'a>(&self, parentheses: u8, depth: u8, symbols: &'a [Symbol]) -> Result<Found<'a>, Fault>
        ensures gives { Gives result (reading.sum self.now.end (reading.inside self.now.end parentheses) depth symbols.entry.now) }
        ensures height { IfOk result HasHeight }
        ensures low { IfOk result (λ f. f.height ≤ depth) }
    {
        let first = self.product(parentheses, depth, symbols)?;
        self.chain_from(Chain::Sum, self.place(symbols), parentheses, depth, first)
    }

    /// Operands with `*`, `div` and `mod` between them.
    #[cycle(expressions)]
    fn product<'a>(
        &self,
        parentheses: u8,
        depth: u8,
        symbols: &'a [Symbol],
    ) -> Result<Found<'a>, Fault>
        ensures gives { Gives result (reading.factor_chain self.now.end (reading.inside self.now.end parentheses) depth symbols.entry.now) }
        ensures height { IfOk result HasHeight }
        ensures low { IfOk result (λ f. f.height ≤ depth) }
    {
        let first = self.unary(parentheses, depth, symbols)?;
        self.chain_from(
            Chain::Product,
            self.place(symbols),
            parentheses,
            depth,
            first,
        )
    }

    /// `!`, unary `-` and what binds more.
    #[cycle(expressions)]
    fn unary<'a>(
        &self,
        parentheses: u8,
        depth: u8,
        symbols: &'a [Symbol],
    ) -> Result<Found<'a>, Fault>
        ensures gives { Gives result (reading.unary self.now.end (reading.inside self.now.end parentheses) depth symbols.entry.now) }
        ensures height { IfOk result HasHeight }
        ensures low { IfOk result (λ f. f.height ≤ depth) }
    {
        match prefix_at(symbols) {
            None => self.primary(parentheses, depth, symbols),
            Some((prefix, at, rest)) => self.prefixed(prefix, at, parentheses, depth, rest),
        }
    }

    /// The operand of a prefix that stands at that place, and the prefix.
    #[cycle(expressions)]
    fn prefixed<'a>(
        &self,
        prefix: Prefix,
        at: Span,
        parentheses: u8,
        depth: u8,
        symbols: &'a [Symbol],
    ) -> Result<Found<'a>, Fault>
        ensures gives { Gives result (reading.unless_deep (nat_eq depth 0) at (reading.over prefix at (reading.unary self.now.end (reading.inside self.now.end parentheses) (depth - 1) symbols.entry.now))) }
        ensures height { IfOk result HasHeight }
        ensures low { IfOk result (λ f. f.height ≤ depth) }
    {
        if depth == 0 {
            return Err(past_limit(Which::Nesting, at));
        }
        let operand = self.unary(parentheses, depth - 1, symbols)?;
        self.behind_prefix(prefix, at, operand)
    }

    /// Literals, names, `old` and parentheses.
    #[cycle(expressions)]
    fn primary<'a>(
        &self,
        parentheses: u8,
        depth: u8,
        symbols: &'a [Symbol],
    ) -> Result<Found<'a>, Fault>
        ensures gives { Gives result (reading.primary self.now.end (reading.inside self.now.end parentheses) depth symbols.entry.now) }
        ensures height { IfOk result HasHeight }
        ensures low { IfOk result (λ f. f.height ≤ depth) }
    {
        let Some((first, rest)) = symbols.split_first() else {
            return Err(self.refused(symbols));
        };
        let span = first.span;
        match &first.sign {
            Sign::Number(n) => self.literal(span, *n, rest),
            Sign::Name(text) => self.variable(span, text, rest),
            Sign::Fixed(Fixed::True) => self.truth(span, true, rest),
            Sign::Fixed(Fixed::False) => self.truth(span, false, rest),
            Sign::Fixed(Fixed::Old) => self.old_value(span, parentheses, depth, rest),
            Sign::Fixed(Fixed::OpenParenthesis) => self.group(parentheses, depth, symbols),
            _ => Err(self.refused(symbols)),
        }
    }

    /// What is behind the word `old`.
    #[cycle(expressions)]
    fn old_value<'a>(
        &self,
        span: Span,
        parentheses: u8,
        depth: u8,
        symbols: &'a [Symbol],
    ) -> Result<Found<'a>, Fault>
        ensures gives { Gives result (reading.old_value (reading.inside self.now.end parentheses) span depth symbols.entry.now) }
        ensures height { IfOk result HasHeight }
        ensures low { IfOk result (λ f. f.height ≤ depth) }
    {
        if depth == 0 {
            return Err(past_limit(Which::Nesting, span));
        }
        let operand = self.group(parentheses, depth - 1, symbols)?;
        let height = operand.height + 1;
        self.node(span, ExprKind::Old(operand.expr), height, operand.rest)
    }

    /// An expression in parentheses.
    #[cycle(expressions)]
    fn group<'a>(
        &self,
        parentheses: u8,
        depth: u8,
        symbols: &'a [Symbol],
    ) -> Result<Found<'a>, Fault>
        ensures gives { Gives result (reading.inside self.now.end parentheses depth symbols.entry.now) }
        ensures height { IfOk result HasHeight }
        ensures low { IfOk result (λ f. f.height ≤ depth) }
    {
        let Some(rest) = behind_open(symbols) else {
            return Err(self.refused(symbols));
        };
        if parentheses == 0 {
            return Err(past_limit(Which::Nesting, self.place(symbols)));
        }
        let first = self.implication(parentheses - 1, depth, rest)?;
        let place = self.place(rest);
        let Found { expr, height, rest } = self.chain_from(
            Chain::Equivalence,
            place,
            parentheses - 1,
            depth,
            first,
        )?;
        match behind_close(rest) {
            None => Err(self.refused(rest)),
            Some(rest) => Ok(Found { expr, height, rest }),
        }
    }
}
