//! How many places and columns a program has, counted up to 2^32.

ghost use Rattle.std.specs.Prelude.{◌≡◌, ◌+◌, ◌<◌, ◌^◌, ◌∷◌, [], map, length, nat_lt, slice_get, IfOk};
ghost use Rattle.std.specs.List.{list_all};
ghost use Rattle.typed_tree.specs.TypedView as view;
ghost use Rattle.typed_tree.specs.TypingRules.Counts as spec;
ghost use Rattle.typed_tree.specs.TypingRules.Ties.CappedCounts.{capped, statement_places, block_places, specification_places};
ghost use Rattle.typed_tree.specs.TypingRules.TypedParts.{typed_program};

use crate::{TExpr, TInv, TProc, TSpec, TStmt};
use boogie_tree::VarInfo;
use std::alloc::{AllocError, Global};
use std::marker::Model;

/// The first number that does not fit into 32 bits. Counts stop here.
const LIMIT: u64 = 0x1_0000_0000;

fn sum(a: u64, b: u64) -> u64
    ensures { result ≡ capped (a + b) }
{
    let whole = a.saturating_add(b);
    if whole < LIMIT { whole } else { LIMIT }
}

/// The procedures, with how many requires a call of each checks.
#[derive(Drop)]
struct Checked<'a> {
    procs: &'a [TProc],
    counts: Vec<u64>,
}

impl<'a> Model for Checked<'a> {
    ghost use Rattle.std.specs.Prelude.{◌≡◌, List, map};
    ghost use Rattle.std.specs.Coded.{codes};
    ghost use Rattle.typed_tree.specs.contracts.types.TExpr as expr;
    ghost use Rattle.typed_tree.specs.contracts.types.TStmt as stmt;
    ghost use Rattle.typed_tree.specs.declared.types.TProc.{TProc};
    ghost use Rattle.typed_tree.specs.TypedView as tree;
    ghost use Rattle.typed_tree.specs.TypingRules.Ties.CappedCounts.{checked_count};

    ghost Value = { List TProc };

    ghost coded = { Prim.hlevel (codes, expr.the_row.coded, stmt.the_row.coded) };

    ghost view = { λ c. c.procs.now };

    ghost invariant = { λ c. c.counts.items ≡ map checked_count (map tree.procedure c.procs.now) };
}

impl<'a> Checked<'a> {
    fn new(alloc: Global, procs: &'a [TProc]) -> Result<Checked<'a>, AllocError>
        ensures { IfOk result (λ checked. checked ≡ procs.now) }
    {
        let mut counts = Vec::with_capacity(alloc, procs.len())?;
        for counted in procs {
            counts.push(plain_requires(&counted.specs))?;
        }
        Ok(Checked { procs, counts })
    }

    /// How many requires a call of that procedure checks.
    fn at(&self, callee: u32) -> u64
        ensures { result ≡ capped (spec.checked_at_call (slice_get (map view.procedure self.now) callee)) }
    {
        self.counts.get(callee as usize).copied().unwrap_or(0)
    }
}

/// How many requires are checked at a call.
fn plain_requires(specs: &[TSpec]) -> u64
    ensures { result ≡ capped (spec.plain_requires (map view.specification specs.now)) }
{
    let mut count = 0;
    for said in specs {
        count = sum(count, at_call(said));
    }
    count
}

/// Whether it is a requires that is checked at a call, as a number.
fn at_call(said: &TSpec) -> u64
    ensures { result ≡ spec.plain_requires (view.specification said.now ∷ []) }
{
    match said {
        TSpec::Requires(required) => plain(required),
        TSpec::Ensures(_) => 0,
    }
}

/// Whether it is checked, as a number.
fn plain(said: &TInv) -> u64
    ensures { result ≡ spec.one_if_plain (view.invariant said.now) }
{
    if said.free { 0 } else { 1 }
}

/// The places of the specifications of a procedure with a body.
fn specifications(specs: &[TSpec]) -> u64
    ensures { result ≡ capped (specification_places (map view.specification specs.now)) }
{
    let mut count = 0;
    for said in specs {
        count = sum(count, at_body(said));
    }
    count
}

/// The places of one of them: where a free requires is assumed, where an ensures is passed, and where it fails.
fn at_body(said: &TSpec) -> u64
    ensures { result ≡ specification_places (view.specification said.now ∷ []) }
{
    match said {
        TSpec::Requires(required) => 1 - plain(required),
        TSpec::Ensures(ensured) => 1 + plain(ensured),
    }
}

/// How many invariants are checked.
fn invariants(conditions: &[TInv]) -> u64
    ensures { result ≡ capped (spec.plain_invariants (map view.invariant conditions.now)) }
{
    let mut count = 0;
    for condition in conditions {
        count = sum(count, plain(condition));
    }
    count
}

/// The places of a loop's guard and its invariants.
fn loop_head(conditions: &[TInv]) -> u64
    ensures { result ≡ capped (1 + (length conditions.now + spec.plain_invariants (map view.invariant conditions.now))) }
{
    sum(1, sum(conditions.len() as u64, invariants(conditions)))
}

/// The places of a call: one for each requires that it checks, one for each to fail at, and its own.
fn call(checked: &Checked, callee: u32) -> u64
    ensures { result ≡ capped (spec.checked_at_call (slice_get (map view.procedure checked.now) callee) + (1 + spec.checked_at_call (slice_get (map view.procedure checked.now) callee))) }
{
    let count = checked.at(callee);
    sum(count, sum(1, count))
}

/// The places of a statement. It recurses as deep as statements are nested, as dropping one does.
#[cycle(counts)]
fn statement(checked: &Checked, counted: &TStmt) -> u64
    ensures { result ≡ capped (statement_places (map view.procedure checked.now) (view.statement counted.now)) }
{
    match counted {
        TStmt::Assert(_, _) => 2,
        TStmt::Havoc(_, columns) => sum(0, columns.len() as u64),
        TStmt::Call(_, _, callee, _) => call(checked, *callee),
        TStmt::If(_, _, then, otherwise) => {
            let inner = block(checked, then);
            sum(1, sum(inner, block(checked, otherwise)))
        }
        TStmt::While(_, _, conditions, body) => {
            let head = loop_head(conditions);
            sum(head, block(checked, body))
        }
        TStmt::Label(_) => 0,
        TStmt::Assume(_, _) | TStmt::Assign(_, _, _) => 1,
        TStmt::Break(_, _) | TStmt::Goto(_, _) | TStmt::Return(_) => 1,
    }
}

/// The places of the statements of a list.
#[cycle(counts)]
fn block(checked: &Checked, listed: &[TStmt]) -> u64
    ensures { result ≡ capped (block_places (map view.procedure checked.now) (view.statements listed.now)) }
{
    let mut count = 0;
    for counted in listed {
        count = sum(count, statement(checked, counted));
    }
    count
}

/// The places of a procedure: one that has a body has an exit, too.
fn procedure(checked: &Checked, counted: &TProc) -> u64
    ensures { result ≡ capped (spec.procedure_places (map view.procedure checked.now) (view.procedure counted.now)) }
{
    match &counted.body {
        None => 0,
        Some(listed) => {
            let said = sum(1, specifications(&counted.specs));
            sum(said, block(checked, listed))
        }
    }
}

/// The places of all procedures.
fn procedures(checked: &Checked, procs: &[TProc]) -> u64
    ensures { result ≡ capped (spec.all_places (map view.procedure checked.now) (map view.procedure procs.now)) }
{
    let mut count = 0;
    for counted in procs {
        count = sum(count, procedure(checked, counted));
    }
    count
}

/// Whether the columns of each procedure's frame have numbers of 32 bits.
fn all_columns_fit(globals: &[VarInfo], procs: &[TProc]) -> bool
    ensures { result ≡ list_all (spec.columns_fit globals.now) (map view.procedure procs.now) }
{
    for counted in procs {
        if !columns_fit(globals, counted) {
            return false;
        }
    }
    true
}

fn columns_fit(globals: &[VarInfo], counted: &TProc) -> bool
    ensures { result ≡ spec.columns_fit globals.now (view.procedure counted.now) }
{
    let globals = globals.len() as u64;
    sum(globals, sum(globals, counted.locals.len() as u64)) < LIMIT
}

/// The places of a program.
fn places(checked: &Checked, axioms: &[TExpr], procs: &[TProc], entry: u32) -> u64
    requires { checked.now ≡ procs.now }
    ensures { result ≡ capped (1 + (length axioms.now + (spec.checked_at_call (slice_get (map view.procedure checked.now) entry) + spec.all_places (map view.procedure checked.now) (map view.procedure checked.now)))) }
{
    let entered = sum(checked.at(entry), procedures(checked, procs));
    sum(1, sum(axioms.len() as u64, entered))
}

/// Whether places, procedures and columns of the program have numbers of 32 bits.
pub fn numbers_fit(
    alloc: Global,
    globals: &[VarInfo],
    axioms: &[TExpr],
    procs: &[TProc],
    entry: u32,
) -> Result<bool, AllocError>
    ensures { IfOk result (λ fits. fits ≡ spec.numbers_fit (typed_program (record { globals = globals.now; axioms = axioms.now; procs = procs.now; entry = entry }))) }
{
    let checked = Checked::new(alloc, procs)?;
    let fits = places(&checked, axioms, procs, entry) < LIMIT;
    Ok(fits && (procs.len() as u64) < LIMIT && all_columns_fit(globals, procs))
}
