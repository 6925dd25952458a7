//! Statements that hold no others.

ghost use Rattle.std.specs.Prelude.{◌≡◌, ◌++◌, ◌∷◌, [], None, IfErr, OnOk};
ghost use Rattle.boogie_tree.specs.declared.tree.Stmt.TheVariants as stmts;
ghost use Rattle.boogie_parse.specs.declared.fault.Fault.TheVariants as faults;
ghost use Rattle.boogie_parse.specs.declared.symbols.Fixed.TheVariants as fixed;
ghost use Rattle.boogie_parse.specs.Reading.ListReading as list;
ghost use Rattle.boogie_parse.specs.Reading.StatementReading as spec;
ghost use Rattle.boogie_parse.specs.Reading.StatementReading.{Inside};
ghost use Rattle.boogie_parse.specs.Ties.StatementViews.{AddsIf};

use super::lists::seen;
use super::parser::Parser;
use super::variables::PARENTHESES;
use crate::fault::Fault;
use crate::symbols::{Fixed, Sign, Symbol};
use boogie_tree::{Name, Span, Stmt, Text};

/// Puts a statement behind the others.
pub(super) fn put(statements: &mut Vec<Stmt>, statement: Stmt) -> Result<(), Fault>
    ensures ok { OnOk result (statements.new.items ≡ statements.old.items ++ statement ∷ []) }
    ensures fault { IfErr result (λ f. f ≡ faults.Memory) }
{
    statements.push(statement)?;
    Ok(())
}

/// Puts the label of that name behind the others.
fn put_label(statements: &mut Vec<Stmt>, span: Span, text: &Text) -> Result<(), Fault>
    ensures ok { OnOk result (statements.new.items ≡ statements.old.items ++ stmts.Label (record { span = span; text = text.now }) ∷ []) }
    ensures fault { IfErr result (λ f. f ≡ faults.Memory) }
{
    let text = text.copy()?;
    put(statements, Stmt::Label(Name { span, text }))
}

impl Parser {
    /// A statement that holds no others, if one stands there.
    #[tactic(auto, unfolding(crate::specs::Reading::StatementReading::statement_at, crate::specs::Reading::ListReading::seen))]
    pub(super) fn plain<'a>(
        &self,
        symbols: &'a [Symbol],
        statements: &mut Vec<Stmt>,
    ) -> Result<Option<&'a [Symbol]>, Fault>
        requires no_branch { list.seen fixed.If symbols.now ≡ None }
        requires no_loop { list.seen fixed.While symbols.now ≡ None }
        ensures { (inside : Inside) → AddsIf statements.old.items statements.new.items result
            (spec.statement_at (list.expression_at self.now.end) self.now.end 200 inside symbols.now) }
    {
        let Some((first, rest)) = symbols.split_first() else {
            return Ok(None);
        };
        let span = first.span;
        match &first.sign {
            Sign::Fixed(Fixed::Assert) => self.assertion(span, rest, statements),
            Sign::Fixed(Fixed::Assume) => self.assumption(span, rest, statements),
            Sign::Fixed(Fixed::Havoc) => self.havoc(span, rest, statements),
            Sign::Fixed(Fixed::Call) => self.call(span, rest, statements),
            Sign::Fixed(Fixed::Break) => self.break_out(span, rest, statements),
            Sign::Fixed(Fixed::Goto) => self.goto(span, rest, statements),
            Sign::Fixed(Fixed::Return) => self.return_out(span, rest, statements),
            Sign::Name(text) => self.named(span, text, symbols, rest, statements),
            // (the caller has looked for these two)
            Sign::Fixed(Fixed::If) => Ok(None),
            Sign::Fixed(Fixed::While) => Ok(None),
            _ => Ok(None),
        }
    }
}

/// Each takes the place of the statement's first word and the symbols behind it, adds the statement to the list, and gives the symbols
/// behind it.
impl Parser {
    #[tactic(auto, unfolding(crate::specs::Reading::StatementReading::assert_at))]
    fn assertion<'a>(
        &self,
        span: Span,
        symbols: &'a [Symbol],
        statements: &mut Vec<Stmt>,
    ) -> Result<Option<&'a [Symbol]>, Fault>
        ensures { AddsIf statements.old.items statements.new.items result
            (list.there (spec.assert_at (list.expression_at self.now.end) self.now.end 200 span symbols.now)) }
    {
        let (condition, rest) = self.claim(symbols)?;
        put(statements, Stmt::Assert(span, condition))?;
        Ok(Some(rest))
    }

    #[tactic(auto, unfolding(crate::specs::Reading::StatementReading::assume_at))]
    fn assumption<'a>(
        &self,
        span: Span,
        symbols: &'a [Symbol],
        statements: &mut Vec<Stmt>,
    ) -> Result<Option<&'a [Symbol]>, Fault>
        ensures { AddsIf statements.old.items statements.new.items result
            (list.there (spec.assume_at (list.expression_at self.now.end) self.now.end 200 span symbols.now)) }
    {
        let (condition, rest) = self.claim(symbols)?;
        put(statements, Stmt::Assume(span, condition))?;
        Ok(Some(rest))
    }

    #[tactic(auto, unfolding(crate::specs::Reading::StatementReading::havoc_at))]
    fn havoc<'a>(
        &self,
        span: Span,
        symbols: &'a [Symbol],
        statements: &mut Vec<Stmt>,
    ) -> Result<Option<&'a [Symbol]>, Fault>
        ensures { AddsIf statements.old.items statements.new.items result (list.there (spec.havoc_at self.now.end span symbols.now)) }
    {
        let (names, rest) = self.listed_names(symbols)?;
        put(statements, Stmt::Havoc(span, names))?;
        Ok(Some(rest))
    }

    #[tactic(auto, unfolding(crate::specs::Reading::StatementReading::goto_at))]
    fn goto<'a>(
        &self,
        span: Span,
        symbols: &'a [Symbol],
        statements: &mut Vec<Stmt>,
    ) -> Result<Option<&'a [Symbol]>, Fault>
        ensures { AddsIf statements.old.items statements.new.items result (list.there (spec.goto_at self.now.end span symbols.now)) }
    {
        let (names, rest) = self.listed_names(symbols)?;
        put(statements, Stmt::Goto(span, names))?;
        Ok(Some(rest))
    }

    #[tactic(auto, unfolding(crate::specs::Reading::StatementReading::break_at))]
    fn break_out<'a>(
        &self,
        span: Span,
        symbols: &'a [Symbol],
        statements: &mut Vec<Stmt>,
    ) -> Result<Option<&'a [Symbol]>, Fault>
        ensures { AddsIf statements.old.items statements.new.items result (list.there (spec.break_at self.now.end span symbols.now)) }
    {
        if let Some((_, rest)) = seen(Fixed::Semicolon, symbols) {
            put(statements, Stmt::Break(span, None))?;
            return Ok(Some(rest));
        }
        let (label, rest) = self.name(symbols)?;
        let (_, rest) = self.behind(Fixed::Semicolon, rest)?;
        put(statements, Stmt::Break(span, Some(label)))?;
        Ok(Some(rest))
    }

    #[tactic(auto, unfolding(crate::specs::Reading::StatementReading::return_at))]
    fn return_out<'a>(
        &self,
        span: Span,
        symbols: &'a [Symbol],
        statements: &mut Vec<Stmt>,
    ) -> Result<Option<&'a [Symbol]>, Fault>
        ensures { AddsIf statements.old.items statements.new.items result (list.there (spec.return_at self.now.end span symbols.now)) }
    {
        let (_, rest) = self.behind(Fixed::Semicolon, symbols)?;
        put(statements, Stmt::Return(span))?;
        Ok(Some(rest))
    }

    /// An assignment, from its first target on.
    #[tactic(auto, unfolding(crate::specs::Reading::StatementReading::assign_at))]
    fn assignment<'a>(
        &self,
        span: Span,
        symbols: &'a [Symbol],
        statements: &mut Vec<Stmt>,
    ) -> Result<Option<&'a [Symbol]>, Fault>
        ensures { AddsIf statements.old.items statements.new.items result
            (list.there (spec.assign_at (list.expression_at self.now.end) self.now.end 200 span symbols.now)) }
    {
        let (targets, rest) = self.names(symbols.len(), symbols)?;
        let (_, rest) = self.behind(Fixed::Becomes, rest)?;
        let (values, rest) = self.expressions(PARENTHESES, rest)?;
        let (_, rest) = self.behind(Fixed::Semicolon, rest)?;
        put(statements, Stmt::Assign(span, targets, values))?;
        Ok(Some(rest))
    }

    /// A label or an assignment, whose name stands first; `rest` stands behind it.
    #[tactic(auto, unfolding(crate::specs::Reading::StatementReading::named_at))]
    fn named<'a>(
        &self,
        span: Span,
        text: &Text,
        symbols: &'a [Symbol],
        rest: &'a [Symbol],
        statements: &mut Vec<Stmt>,
    ) -> Result<Option<&'a [Symbol]>, Fault>
        ensures { AddsIf statements.old.items statements.new.items result
            (list.there (spec.named_at (list.expression_at self.now.end) self.now.end 200 (record { span = span; text = text.now }) symbols.now rest.now)) }
    {
        match seen(Fixed::Colon, rest) {
            Some((_, rest)) => {
                put_label(statements, span, text)?;
                Ok(Some(rest))
            }
            None => self.assignment(span, symbols, statements),
        }
    }

    /// The arguments of a call and its semicolon.
    #[tactic(auto, unfolding(crate::specs::Reading::StatementReading::called_at))]
    fn called<'a>(
        &self,
        span: Span,
        targets: Vec<Name>,
        procedure: Name,
        symbols: &'a [Symbol],
        statements: &mut Vec<Stmt>,
    ) -> Result<Option<&'a [Symbol]>, Fault>
        ensures { AddsIf statements.old.items statements.new.items result
            (list.there (spec.called_at (list.expression_at self.now.end) self.now.end 200 span targets.items procedure symbols.now)) }
    {
        let (arguments, rest) = self.arguments(symbols)?;
        let (_, rest) = self.behind(Fixed::Semicolon, rest)?;
        put(statements, Stmt::Call(span, targets, procedure, arguments))?;
        Ok(Some(rest))
    }

    /// A call with targets.
    #[tactic(auto, unfolding(crate::specs::Reading::StatementReading::call_into))]
    fn call_into<'a>(
        &self,
        span: Span,
        symbols: &'a [Symbol],
        statements: &mut Vec<Stmt>,
    ) -> Result<Option<&'a [Symbol]>, Fault>
        ensures { AddsIf statements.old.items statements.new.items result
            (list.there (spec.call_into (list.expression_at self.now.end) self.now.end 200 span symbols.now)) }
    {
        let (targets, rest) = self.names(symbols.len(), symbols)?;
        let (_, rest) = self.behind(Fixed::Becomes, rest)?;
        let (procedure, rest) = self.name(rest)?;
        self.called(span, targets, procedure, rest, statements)
    }

    #[tactic(auto, unfolding(crate::specs::Reading::StatementReading::call_at))]
    fn call<'a>(
        &self,
        span: Span,
        symbols: &'a [Symbol],
        statements: &mut Vec<Stmt>,
    ) -> Result<Option<&'a [Symbol]>, Fault>
        ensures { AddsIf statements.old.items statements.new.items result
            (list.there (spec.call_at (list.expression_at self.now.end) self.now.end 200 span symbols.now)) }
    {
        let (procedure, rest) = self.name(symbols)?;
        match seen(Fixed::OpenParenthesis, rest) {
            Some(_) => { self.called(span, Vec::new(self.alloc), procedure, rest, statements) },
            None => self.call_into(span, symbols, statements),
        }
    }
}
