ghost use Rattle.std.specs.Prelude.{◌≡◌, ◌<◌, ◌≤◌, suc, max, IfOk};
ghost use Rattle.boogie_tree.specs.Tree.{Bin, Lit, Truth, Var};
ghost use Rattle.boogie_tree.specs.View.{kind_view};
ghost use Rattle.boogie_parse.specs.Rules.GrammarLimits.{depth};
ghost use Rattle.boogie_parse.specs.Reading.ExpressionReading.{done, prefixed};
ghost use Rattle.boogie_parse.specs.Ties.ExpressionViews.{tree, Gives, HasHeight};

use super::expressions::operators::Prefix;
use super::parser::Parser;
use crate::fault::Fault;
use crate::symbols::Symbol;
use boogie_tree::{Expr, ExprKind, Name, Op, Span, Text};

/// An expression that was read.
#[derive(Drop)]
pub(crate) struct Found<'a> {
    pub expr: Box<Expr>,
    /// How deep the expression is: 0 for a name or a literal, else one more than its deepest part.
    pub height: u8,
    /// The symbols behind it.
    pub rest: &'a [Symbol],
}

impl Parser {
    /// The expression of that kind and height.
    pub(crate) fn node<'a>(
        &self,
        span: Span,
        kind: ExprKind,
        height: u8,
        rest: &'a [Symbol],
    ) -> Result<Found<'a>, Fault>
        requires { height ≡ depth (kind_view span kind) }
        ensures gives { Gives result (done (kind_view span kind) rest.entry.now) }
        ensures height { IfOk result HasHeight }
        ensures same { IfOk result (λ f. f.height ≡ height) }
    {
        let expr = Box::new(self.alloc, Expr { span, kind })?;
        Ok(Found { expr, height, rest })
    }

    /// The operation on two operands, of which the right one was read last.
    pub(crate) fn operation<'a>(
        &self,
        span: Span,
        op: Op,
        left: Found<'_>,
        right: Found<'a>,
    ) -> Result<Found<'a>, Fault>
        requires left_low { left.height < 255 }
        requires right_low { right.height < 255 }
        requires left_height { HasHeight left }
        requires right_height { HasHeight right }
        ensures gives { Gives result (done (Bin span op (tree left.entry) (tree right.entry)) right.entry.rest.now) }
        ensures height { IfOk result HasHeight }
        ensures same { IfOk result (λ f. f.height ≡ suc (max left.entry.height right.entry.height)) }
    {
        let height = left.height.max(right.height) + 1;
        let kind = ExprKind::Bin(op, left.expr, right.expr);
        self.node(span, kind, height, right.rest)
    }

    /// The literal that stands at that place.
    pub(crate) fn literal<'a>(
        &self,
        span: Span,
        value: i128,
        rest: &'a [Symbol],
    ) -> Result<Found<'a>, Fault>
        ensures gives { Gives result (done (Lit span value) rest.entry.now) }
        ensures height { IfOk result HasHeight }
        ensures low { IfOk result (λ f. f.height ≡ 0) }
    {
        self.node(span, ExprKind::Lit(value), 0, rest)
    }

    /// The truth value that stands at that place.
    pub(crate) fn truth<'a>(
        &self,
        span: Span,
        value: bool,
        rest: &'a [Symbol],
    ) -> Result<Found<'a>, Fault>
        ensures gives { Gives result (done (Truth span value) rest.entry.now) }
        ensures height { IfOk result HasHeight }
        ensures low { IfOk result (λ f. f.height ≡ 0) }
    {
        self.node(span, ExprKind::Truth(value), 0, rest)
    }

    /// The variable of that name, which stands at that place.
    pub(crate) fn variable<'a>(
        &self,
        span: Span,
        text: &Text,
        rest: &'a [Symbol],
    ) -> Result<Found<'a>, Fault>
        ensures gives { Gives result (done (Var span (record { span = span; text = text.now })) rest.entry.now) }
        ensures height { IfOk result HasHeight }
        ensures low { IfOk result (λ f. f.height ≡ 0) }
    {
        let text = text.copy()?;
        self.node(span, ExprKind::Var(Name { span, text }), 0, rest)
    }

    /// The prefix at that place before an operand.
    pub(crate) fn behind_prefix<'a>(
        &self,
        prefix: Prefix,
        at: Span,
        operand: Found<'a>,
    ) -> Result<Found<'a>, Fault>
        requires low { operand.height < 255 }
        requires height { HasHeight operand }
        ensures gives { Gives result (done (prefixed prefix at (tree operand.entry)) operand.entry.rest.now) }
        ensures height { IfOk result HasHeight }
        ensures same { IfOk result (λ f. f.height ≡ suc operand.entry.height) }
    {
        let height = operand.height + 1;
        let kind = match prefix {
            Prefix::Not => ExprKind::Not(operand.expr),
            Prefix::Neg => ExprKind::Neg(operand.expr),
        };
        self.node(at, kind, height, operand.rest)
    }
}
