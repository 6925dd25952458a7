//! Statements with invariants at their loops and assertions behind their labels.

ghost use Rattle.std.specs.Prelude.{◌≡◌, ◌++◌, IfOk, OnOk, map, slice_get};
ghost use Rattle.boogie_tree.specs.View as tree;
ghost use Rattle.typed_tree.specs.TypedView as typed;
ghost use Rattle.explained_proof.specs.Ties.Fitting.{HasPlaces, StatementFits};
ghost use Rattle.explained_proof.specs.Statements as spec;
ghost use Rattle.explained_proof.specs.Ties.Views as view;

use crate::backwards::{Numbers, breaks_to};
use crate::built_expressions::NOWHERE;
use crate::clauses::Procedure;
use crate::row_expressions::Position;
use boogie_run::boogie_points::counts::{block_points, points};
use boogie_tree::{Expr, Guard, Inv, Span, Stmt};
use std::alloc::{AllocError, Global};
use typed_tree::{TProc, TStmt};

/// A body whose statements are explained: all procedures, what is known of this one, and the labels to which a goto behind them leads.
#[derive(Clone, Copy)]
pub(crate) struct Walk<'a> {
    pub(crate) alloc: Global,
    pub(crate) procs: &'a [TProc],
    pub(crate) procedure: &'a Procedure<'a>,
    pub(crate) backwards: &'a Numbers,
}

/// What is left of a list of statements whose names are replaced, and the number of its first place.
#[derive(Clone, Copy)]
pub(crate) struct Place<'a> {
    pub(crate) rest: &'a [TStmt],
    pub(crate) at: u64,
}

/// Behind the first statement.
fn past<'a>(procs: &[TProc], left: Place<'a>) -> Place<'a>
    requires { HasPlaces (map typed.procedure procs.now) (view.left left) }
    ensures value { view.left result ≡ spec.past (map typed.procedure procs.now) (view.left left.entry) }
    ensures fits { HasPlaces (map typed.procedure procs.now) (view.left result) }
{
    match left.rest.split_first() {
        Some((first, rest)) => Place {
            rest,
            at: left.at + u64::from(points(procs, first)),
        },
        None => left,
    }
}

/// Whether the statement puts a value into a variable.
fn is_assignment(statement: &TStmt) -> bool
    ensures { result ≡ spec.is_assignment (typed.statement statement.now) }
{
    matches!(statement, TStmt::Assign(_, _, _))
}

/// Behind the assignments to hidden locals before a call.
fn past_hidden<'a>(procs: &[TProc], left: Place<'a>) -> Place<'a>
    requires { HasPlaces (map typed.procedure procs.now) (view.left left) }
    ensures value { view.left result ≡ spec.past_hidden (view.left left.entry) }
    ensures fits { HasPlaces (map typed.procedure procs.now) (view.left result) }
{
    let mut left = left;
    while let Some((first, rest)) = left.rest.split_first() {
        if !is_assignment(first) {
            return left;
        }
        left = Place {
            rest,
            at: left.at + 1,
        };
    }
    left
}

/// Behind a statement.
fn behind<'a>(procs: &[TProc], statement: &Stmt, left: Place<'a>) -> Place<'a>
    requires { HasPlaces (map typed.procedure procs.now) (view.left left) }
    ensures value { view.left result ≡ spec.behind (map typed.procedure procs.now) (tree.statement statement.now) (view.left left.entry) }
    ensures fits { HasPlaces (map typed.procedure procs.now) (view.left result) }
{
    match statement {
        Stmt::Call(_, _, _, _) => past(procs, past_hidden(procs, left)),
        _ => past(procs, left),
    }
}

/// Nothing is left.
fn nothing_at<'a>(at: u64) -> Place<'a>
    ensures { view.left result ≡ spec.nothing_at at }
{
    Place { rest: &[], at }
}

/// The body of a loop, behind its invariants and its guard.
fn body_of<'a>(procs: &[TProc], statement: &'a TStmt, at: u64) -> Place<'a>
    requires { StatementFits (map typed.procedure procs.now) (typed.statement statement.now) at }
    ensures { view.left result ≡ spec.body_of (typed.statement statement.entry.now) at }
{
    match statement {
        TStmt::While(_, _, conditions, body) => Place {
            rest: body,
            at: at + conditions.len() as u64 + 1,
        },
        _ => nothing_at(at),
    }
}

/// The first branch of the branch that stands first.
fn first_branch<'a>(procs: &[TProc], left: Place<'a>) -> Place<'a>
    requires { HasPlaces (map typed.procedure procs.now) (view.left left) }
    ensures value { view.left result ≡ spec.first_branch (view.left left.entry) }
    ensures fits { HasPlaces (map typed.procedure procs.now) (view.left result) }
{
    let Some((first, _)) = left.rest.split_first() else {
        return nothing_at(left.at);
    };
    let TStmt::If(_, _, then, _) = first else {
        return nothing_at(left.at);
    };
    Place {
        rest: then,
        at: left.at + 1,
    }
}

/// The second branch of the branch that stands first.
fn second_branch<'a>(procs: &[TProc], left: Place<'a>) -> Place<'a>
    requires { HasPlaces (map typed.procedure procs.now) (view.left left) }
    ensures value { view.left result ≡ spec.second_branch (map typed.procedure procs.now) (view.left left.entry) }
    ensures fits { HasPlaces (map typed.procedure procs.now) (view.left result) }
{
    let Some((first, _)) = left.rest.split_first() else {
        return nothing_at(left.at);
    };
    let TStmt::If(_, _, then, otherwise) = first else {
        return nothing_at(left.at);
    };
    Place {
        rest: otherwise,
        at: left.at + 1 + u64::from(block_points(procs, then)),
    }
}

/// The body of the loop that stands first, behind its invariants and its guard.
fn loop_body<'a>(procs: &[TProc], left: Place<'a>) -> Place<'a>
    requires { HasPlaces (map typed.procedure procs.now) (view.left left) }
    ensures value { view.left result ≡ spec.loop_body (view.left left.entry) }
    ensures fits { HasPlaces (map typed.procedure procs.now) (view.left result) }
{
    match left.rest.split_first() {
        Some((first, _)) => body_of(procs, first, left.at),
        None => nothing_at(left.at),
    }
}

/// A condition that is not free.
pub(crate) fn condition(cond: Expr) -> Inv
    ensures { tree.invariant result ≡ spec.condition (tree.expression cond) }
{
    Inv {
        span: NOWHERE,
        free: false,
        cond,
    }
}

/// Whether a break in the loop behind the label names it, for which the loop has to stand there.
fn is_left(statement: &Stmt, rest: &[Stmt]) -> bool
    ensures { result ≡ spec.is_left (tree.statement statement.now) (tree.statements rest.now) }
{
    let Stmt::Label(name) = statement else {
        return false;
    };
    match rest.split_first() {
        Some((first, _)) => breaks_to(name.text.bytes(), first),
        None => false,
    }
}

/// Of each statement whether it is such a label.
fn left_labels(alloc: Global, statements: &[Stmt]) -> Result<Vec<bool>, AllocError>
    ensures { IfOk result (λ list. list.items ≡ spec.left_labels (tree.statements statements.now)) }
{
    let mut list = Vec::with_capacity(alloc, statements.len())?;
    let mut left = statements;
    while let Some((first, rest)) = left.split_first() {
        list.push(is_left(first, rest))?;
        left = rest;
    }
    Ok(list)
}

/// The flag with that number, false past the last.
fn flag_at(flags: &[bool], number: usize) -> bool
    ensures { result ≡ spec.flag (slice_get flags.now number) }
{
    match flags.get(number) {
        Some(flag) => *flag,
        None => false,
    }
}

/// Whether a label stands first to which a goto behind it leads.
fn leads_backwards(backwards: &Numbers, statements: &[TStmt]) -> bool
    ensures { result ≡ spec.leads_backwards (view.numbers backwards.now) (typed.statements statements.now) }
{
    let Some((first, _)) = statements.split_first() else {
        return false;
    };
    match first {
        TStmt::Label(number) => backwards.has(*number),
        _ => false,
    }
}

/// A branch.
fn branched(span: Span, guard: Guard, then: Vec<Stmt>, otherwise: Vec<Stmt>) -> Stmt
    ensures { tree.statement result ≡ spec.branched span (tree.guard guard) (tree.statements then.items) (tree.statements otherwise.items) }
{
    Stmt::If(span, guard, then, otherwise)
}

/// A loop.
fn looped(span: Span, guard: Guard, conditions: Vec<Inv>, body: Vec<Stmt>) -> Stmt
    ensures { tree.statement result ≡ spec.looped span (tree.guard guard) (map tree.invariant conditions.items) (tree.statements body.items) }
{
    Stmt::While(span, guard, conditions, body)
}

/// Clauses as conditions.
fn conditions_of(alloc: Global, clauses: Vec<Expr>) -> Result<Vec<Inv>, AllocError>
    ensures { IfOk result (λ list. map tree.invariant list.items ≡ map spec.condition (map tree.expression clauses.items)) }
{
    let mut list = Vec::with_capacity(alloc, clauses.len())?;
    for clause in clauses {
        list.push(condition(clause))?;
    }
    Ok(list)
}

/// Clauses as assertions.
fn assertions_of(alloc: Global, clauses: Vec<Expr>) -> Result<Vec<Stmt>, AllocError>
    ensures { IfOk result (λ list. map tree.statement list.items ≡ map spec.asserted (map tree.expression clauses.items)) }
{
    let mut list = Vec::with_capacity(alloc, clauses.len())?;
    for clause in clauses {
        list.push(Stmt::Assert(NOWHERE, clause))?;
    }
    Ok(list)
}

impl<'a> Walk<'a> {
    /// What holds at a place.
    fn held(&self, place: u64) -> Result<Vec<Expr>, AllocError>
        ensures { IfOk result (λ list. map tree.expression list.items ≡ spec.held (view.setting self.now) place) }
    {
        self.procedure.holding(self.alloc, Position::Body, place)
    }

    /// Adds what holds behind a label to which a goto behind it leads, unless a break names it.
    fn add_assertions(
        &self,
        is_left: bool,
        left: Place<'_>,
        out: &mut Vec<Stmt>,
    ) -> Result<(), AllocError>
        ensures { OnOk result (map tree.statement out.new.items ≡
            map tree.statement out.old.items ++ map spec.asserted (spec.assertions_behind (view.setting self.now) is_left (view.left left.entry))) }
    {
        if is_left || !leads_backwards(self.backwards, left.rest) {
            return Ok(());
        }
        let mut assertions = assertions_of(self.alloc, self.held(left.at)?)?;
        Ok(out.append(&mut assertions)?)
    }

    /// What holds at a loop, in front of its own invariants.
    fn conditions(&self, own: Vec<Inv>, place: u64) -> Result<Vec<Inv>, AllocError>
        ensures { IfOk result (λ list. map tree.invariant list.items ≡ map spec.condition (spec.held (view.setting self.now) place) ++ map tree.invariant own.items) }
    {
        let mut own = own;
        let mut conditions = conditions_of(self.alloc, self.held(place)?)?;
        conditions.append(&mut own)?;
        Ok(conditions)
    }

    /// A statement with what holds in it. It recurses as deep as statements are nested, as dropping one does.
    #[cycle(explained_statements)]
    fn statement(&self, given: Stmt, left: Place<'_>) -> Result<Stmt, AllocError>
        requires { HasPlaces (map typed.procedure self.now.procs.now) (view.left left) }
        ensures { IfOk result (λ s. tree.statement s ≡ spec.explained_statement (view.setting self.now) (tree.statement given) (view.left left.entry)) }
    {
        match given {
            Stmt::If(span, guard, then, otherwise) => {
                let then = self.statements(then, first_branch(self.procs, left))?;
                let otherwise = self.statements(otherwise, second_branch(self.procs, left))?;
                Ok(branched(span, guard, then, otherwise))
            }
            Stmt::While(span, guard, own, body) => {
                let conditions = self.conditions(own, left.at)?;
                let body = self.statements(body, loop_body(self.procs, left))?;
                Ok(looped(span, guard, conditions, body))
            }
            other => Ok(other),
        }
    }

    /// Statements with what holds at their loops and behind their labels.
    #[cycle(explained_statements)]
    pub(crate) fn statements(
        &self,
        given: Vec<Stmt>,
        left: Place<'_>,
    ) -> Result<Vec<Stmt>, AllocError>
        requires { HasPlaces (map typed.procedure self.now.procs.now) (view.left left) }
        ensures { IfOk result (λ out. tree.statements out.items ≡ spec.explained_block (view.setting self.now) (tree.statements given.items) (view.left left.entry)) }
    {
        let left_labels = left_labels(self.alloc, &given)?;
        let mut out = Vec::with_capacity(self.alloc, given.len())?;
        let mut left = left;
        let mut number: usize = 0;
        for statement in given {
            let is_left = flag_at(&left_labels, number);
            let next = behind(self.procs, &statement, left);
            out.push(self.statement(statement, left)?)?;
            self.add_assertions(is_left, left, &mut out)?;
            left = next;
            number = number.saturating_add(1);
        }
        Ok(out)
    }
}
