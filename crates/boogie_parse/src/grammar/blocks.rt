//! Blocks, and the statements that hold them.

ghost use Rattle.std.specs.Prelude.{◌≡◌, ◌++◌, ◌∷◌, [], IfErr, OnOk};
ghost use Rattle.boogie_tree.specs.declared.tree.Stmt.TheVariants as stmts;
ghost use Rattle.boogie_parse.specs.declared.fault.Fault.TheVariants as faults;
ghost use Rattle.boogie_tree.specs.View as view;
ghost use Rattle.boogie_parse.specs.Reading.ListReading as list;
ghost use Rattle.boogie_parse.specs.Reading.StatementReading as spec;
ghost use Rattle.boogie_parse.specs.declared.symbols.Fixed.TheVariants as fixed;
ghost use Rattle.boogie_parse.specs.Ties.StatementViews.{inside, block_of, Adds, AddsIf};
ghost use Rattle.boogie_parse.specs.Reading.ListViews.{Gives, found, items_as};

use super::lists::seen;
use super::parser::{Parser, past_limit};
use super::statements::put;
use crate::fault::{Fault, Which};
use crate::symbols::{Fixed, Symbol};
use boogie_tree::{Guard, Inv, Span, Stmt};

/// Puts an `if` behind the other statements.
fn put_branches(
    statements: &mut Vec<Stmt>,
    span: Span,
    guard: Guard,
    then: Vec<Stmt>,
    other: Vec<Stmt>,
) -> Result<(), Fault>
    ensures ok { OnOk result (statements.new.items ≡ statements.old.items ++ stmts.If span guard then other ∷ []) }
    ensures fault { IfErr result (λ f. f ≡ faults.Memory) }
{
    put(statements, Stmt::If(span, guard, then, other))
}

/// Puts a loop behind the other statements.
fn put_loop(
    statements: &mut Vec<Stmt>,
    span: Span,
    guard: Guard,
    invariants: Vec<Inv>,
    body: Vec<Stmt>,
) -> Result<(), Fault>
    ensures ok { OnOk result (statements.new.items ≡ statements.old.items ++ stmts.While span guard invariants body ∷ []) }
    ensures fault { IfErr result (λ f. f ≡ faults.Memory) }
{
    put(statements, Stmt::While(span, guard, invariants, body))
}

/// In each, `blocks` more blocks may be opened.
impl Parser {
    /// Statements in braces.
    #[cycle(statements)]
    pub(super) fn block<'a>(
        &self,
        blocks: u8,
        symbols: &'a [Symbol],
    ) -> Result<(Vec<Stmt>, &'a [Symbol]), Fault>
        ensures { Gives (found block_of) result ((inside self.now.end blocks).block symbols.now) }
    {
        let (span, rest) = self.behind(Fixed::OpenBrace, symbols)?;
        if blocks == 0 {
            return Err(past_limit(Which::Nesting, span));
        }
        let (statements, rest) = self.list(blocks - 1, rest)?;
        let (_, rest) = self.behind(Fixed::CloseBrace, rest)?;
        Ok((statements, rest))
    }

    /// The branch of an `else if`, whose `if` stands at `span`; it is inside one block more.
    #[cycle(statements)]
    fn inner_branch<'a>(
        &self,
        blocks: u8,
        span: Span,
        symbols: &'a [Symbol],
        statements: &mut Vec<Stmt>,
    ) -> Result<&'a [Symbol], Fault>
        ensures { Adds statements.old.items statements.new.items result ((inside self.now.end blocks).branch span symbols.now) }
    {
        if blocks == 0 {
            return Err(past_limit(Which::Nesting, span));
        }
        self.branch(blocks - 1, span, symbols, statements)
    }

    /// What stands behind `else`.
    #[cycle(statements)]
    fn other<'a>(
        &self,
        blocks: u8,
        symbols: &'a [Symbol],
    ) -> Result<(Vec<Stmt>, &'a [Symbol]), Fault>
        ensures { Gives (found block_of) result
            (spec.other_by (inside self.now.end blocks) symbols.now (list.seen fixed.If symbols.now)) }
    {
        match seen(Fixed::If, symbols) {
            None => self.block(blocks, symbols),
            Some((span, rest)) => {
                let mut statements = Vec::new(self.alloc);
                let rest = self.inner_branch(blocks, span, rest, &mut statements)?;
                Ok((statements, rest))
            }
        }
    }

    /// A branch, behind its `if`.
    #[cycle(statements)]
    #[tactic(auto, unfolding(crate::specs::Reading::StatementReading::branch_by))]
    fn branch<'a>(
        &self,
        blocks: u8,
        span: Span,
        symbols: &'a [Symbol],
        statements: &mut Vec<Stmt>,
    ) -> Result<&'a [Symbol], Fault>
        ensures { Adds statements.old.items statements.new.items result
            (spec.branch_by (list.expression_at self.now.end) self.now.end 200 (inside self.now.end blocks) span symbols.now) }
    {
        let (guard, rest) = self.guard(symbols)?;
        let (then, rest) = self.block(blocks, rest)?;
        let (other, rest) = match seen(Fixed::Else, rest) {
            None => (Vec::new(self.alloc), rest),
            Some((_, rest)) => self.other(blocks, rest)?,
        };
        put_branches(statements, span, guard, then, other)?;
        Ok(rest)
    }

    /// A loop, behind its `while`.
    #[cycle(statements)]
    #[tactic(auto, unfolding(crate::specs::Reading::StatementReading::loop_at))]
    fn looped<'a>(
        &self,
        blocks: u8,
        span: Span,
        symbols: &'a [Symbol],
        statements: &mut Vec<Stmt>,
    ) -> Result<&'a [Symbol], Fault>
        ensures { Adds statements.old.items statements.new.items result
            (spec.loop_at (list.expression_at self.now.end) self.now.end 200 (inside self.now.end blocks).block span symbols.now) }
    {
        let (guard, rest) = self.guard(symbols)?;
        let (invariants, rest) = self.invariants(rest)?;
        let (body, rest) = self.block(blocks, rest)?;
        put_loop(statements, span, guard, invariants, body)?;
        Ok(rest)
    }

    /// A statement, if one stands there.
    #[cycle(statements)]
    fn statement<'a>(
        &self,
        blocks: u8,
        symbols: &'a [Symbol],
        statements: &mut Vec<Stmt>,
    ) -> Result<Option<&'a [Symbol]>, Fault>
        ensures { AddsIf statements.old.items statements.new.items result
            (spec.statement_at (list.expression_at self.now.end) self.now.end 200 (inside self.now.end blocks) symbols.now) }
    {
        if let Some((span, rest)) = seen(Fixed::If, symbols) {
            return there(self.branch(blocks, span, rest, statements));
        }
        if let Some((span, rest)) = seen(Fixed::While, symbols) {
            return there(self.looped(blocks, span, rest, statements));
        }
        self.plain(symbols, statements)
    }

    /// The statements that stand there.
    #[cycle(statements)]
    pub(super) fn list<'a>(
        &self,
        blocks: u8,
        symbols: &'a [Symbol],
    ) -> Result<(Vec<Stmt>, &'a [Symbol]), Fault>
        ensures { Gives (found (items_as view.statement)) result
            (spec.list_at (list.expression_at self.now.end) self.now.end 200 (inside self.now.end blocks) symbols.now) }
    {
        let mut statements = Vec::new(self.alloc);
        let mut rest = symbols;
        for _turn in 0..symbols.len() {
            match self.statement(blocks, rest, &mut statements)? {
                None => return Ok((statements, rest)),
                Some(behind) => rest = behind,
            }
        }
        Ok((statements, rest))
    }
}

/// What was read stands there.
pub(super) fn there<X>(read: Result<X, Fault>) -> Result<Option<X>, Fault>
    ensures { result ≡ list.is_there read }
{
    read.map(Some)
}
