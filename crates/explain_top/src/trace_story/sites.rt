//! Where in the text the items stand at the places of a program.

ghost use Rattle.std.specs.Prelude.{◌≡◌, ◌++◌, ◌+◌, Some, map, replicate, IfOk, OnOk, slice_get};
ghost use Rattle.typed_tree.specs.TypedView as view;
ghost use Rattle.typed_tree.specs.TypingRules.TypedParts.{typed_program};
ghost use Rattle.typed_tree.specs.TypingRules.Counts.{checked_at_call};
ghost use Rattle.boogie_run.specs.BoogiePoints.Actions.{plain_conditions, free_conditions, ensured_conditions};
ghost use Rattle.explain_top.specs.TraceStory.Ties.PlaceSites as spec;

use boogie_run::boogie_points::counts::demanded;
use boogie_run::boogie_points::procedure_at;
use boogie_tree::Span;
use std::alloc::{AllocError, Global};
use typed_tree::typing_rules::Typed;
use typed_tree::{TExpr, TInv, TProc, TSpec, TStmt};

/// The number of a procedure, and where an item of it stands; none where it returns.
pub(crate) type Site = (usize, Option<Span>);

/// Adds so many places that stand there.
fn add_many(sites: &mut Vec<Site>, proc: usize, at: Span, count: usize) -> Result<(), AllocError>
    ensures { OnOk result (sites.new.items ≡ sites.old.items ++ replicate count (spec.here proc at)) }
{
    for _i in 0..count {
        sites.push((proc, Some(at)))?;
    }
    Ok(())
}

/// Adds conditions.
fn add_conditions(sites: &mut Vec<Site>, proc: usize, conditions: &[TInv]) -> Result<(), AllocError>
    ensures { OnOk result (sites.new.items ≡ sites.old.items ++ map (spec.condition_site proc) (map view.invariant conditions.now)) }
{
    for condition in conditions {
        sites.push((proc, Some(condition.span)))?;
    }
    Ok(())
}

/// Adds the requires that are not free.
fn add_plain(sites: &mut Vec<Site>, proc: usize, specs: &[TSpec]) -> Result<(), AllocError>
    ensures { OnOk result (sites.new.items ≡ sites.old.items ++ map (spec.condition_site proc) (plain_conditions (map view.specification specs.now))) }
{
    for said in specs {
        if let TSpec::Requires(condition) = said {
            if !condition.free {
                sites.push((proc, Some(condition.span)))?;
            }
        }
    }
    Ok(())
}

/// Adds the requires that are free.
fn add_free(sites: &mut Vec<Site>, proc: usize, specs: &[TSpec]) -> Result<(), AllocError>
    ensures { OnOk result (sites.new.items ≡ sites.old.items ++ map (spec.condition_site proc) (free_conditions (map view.specification specs.now))) }
{
    for said in specs {
        if let TSpec::Requires(condition) = said {
            if condition.free {
                sites.push((proc, Some(condition.span)))?;
            }
        }
    }
    Ok(())
}

/// Adds the ensures.
fn add_ensures(sites: &mut Vec<Site>, proc: usize, specs: &[TSpec]) -> Result<(), AllocError>
    ensures { OnOk result (sites.new.items ≡ sites.old.items ++ map (spec.condition_site proc) (ensured_conditions (map view.specification specs.now))) }
{
    for said in specs {
        if let TSpec::Ensures(condition) = said {
            sites.push((proc, Some(condition.span)))?;
        }
    }
    Ok(())
}

/// Where an axiom stands: where its expression does.
fn axiom_site(proc: usize, expression: &TExpr) -> Site
    ensures { result ≡ spec.axiom_site proc (view.expression expression.now) }
{
    (proc, Some(expression.span))
}

/// Adds axioms.
fn add_axioms(sites: &mut Vec<Site>, proc: usize, axioms: &[TExpr]) -> Result<(), AllocError>
    ensures { OnOk result (sites.new.items ≡ sites.old.items ++ map (spec.axiom_site proc) (map view.expression axioms.now)) }
{
    for axiom in axioms {
        sites.push(axiom_site(proc, axiom))?;
    }
    Ok(())
}

/// How many requires a call of that procedure asserts.
fn checked_at(procs: &[TProc], callee: u32) -> usize
    ensures { result ≡ checked_at_call (slice_get (map view.procedure procs.now) callee) }
{
    match procedure_at(procs, callee) {
        Some(called) => demanded(&called.specs),
        None => 0,
    }
}

/// Adds a call: the requires that it asserts, and the call itself.
fn add_call(
    sites: &mut Vec<Site>,
    procs: &[TProc],
    proc: usize,
    at: Span,
    callee: u32,
) -> Result<(), AllocError>
    ensures { OnOk result (sites.new.items ≡ sites.old.items ++ replicate (checked_at_call (slice_get (map view.procedure procs.now) callee) + 1) (spec.here proc at)) }
{
    add_many(sites, proc, at, checked_at(procs, callee))?;
    sites.push((proc, Some(at)))?;
    Ok(())
}

/// Adds a statement. It recurses as deep as statements are nested, as dropping one does.
#[cycle(statements)]
fn add_statement(
    sites: &mut Vec<Site>,
    procs: &[TProc],
    proc: usize,
    statement: &TStmt,
) -> Result<(), AllocError>
    ensures { OnOk result (sites.new.items ≡ sites.old.items ++ spec.statement_sites (map view.procedure procs.now) proc (view.statement statement.now)) }
{
    match statement {
        TStmt::Havoc(at, columns) => add_many(sites, proc, *at, columns.len()),
        TStmt::Call(at, _, callee, _) => add_call(sites, procs, proc, *at, *callee),
        TStmt::If(at, _, then, otherwise) => {
            sites.push((proc, Some(*at)))?;
            add_block(sites, procs, proc, then)?;
            add_block(sites, procs, proc, otherwise)
        }
        TStmt::While(at, _, conditions, body) => {
            add_conditions(sites, proc, conditions)?;
            sites.push((proc, Some(*at)))?;
            add_block(sites, procs, proc, body)
        }
        TStmt::Label(_) => Ok(()),
        TStmt::Assert(at, _) | TStmt::Assume(at, _) | TStmt::Assign(at, _, _) => {
            add_many(sites, proc, *at, 1)
        }
        TStmt::Break(at, _) | TStmt::Goto(at, _) | TStmt::Return(at) => {
            add_many(sites, proc, *at, 1)
        }
    }
}

/// Adds the statements of a list.
#[cycle(statements)]
fn add_block(
    sites: &mut Vec<Site>,
    procs: &[TProc],
    proc: usize,
    listed: &[TStmt],
) -> Result<(), AllocError>
    ensures { OnOk result (sites.new.items ≡ sites.old.items ++ spec.block_sites (map view.procedure procs.now) proc (view.statements listed.now)) }
{
    for statement in listed {
        add_statement(sites, procs, proc, statement)?;
    }
    Ok(())
}

/// Adds a procedure: its free requires, its statements, its ensures and the return, where it has a body.
fn add_procedure(
    sites: &mut Vec<Site>,
    procs: &[TProc],
    proc: usize,
    added: &TProc,
) -> Result<(), AllocError>
    ensures { OnOk result (sites.new.items ≡ sites.old.items ++ spec.body_sites (map view.procedure procs.now) proc (view.procedure added.now) (view.procedure added.now).body) }
{
    let Some(body) = &added.body else {
        return Ok(());
    };
    add_free(sites, proc, &added.specs)?;
    add_block(sites, procs, proc, body)?;
    add_ensures(sites, proc, &added.specs)?;
    sites.push((proc, None))?;
    Ok(())
}

/// Adds the conditions that are assumed at the start.
fn add_start(sites: &mut Vec<Site>, program: &Typed) -> Result<(), AllocError>
    ensures { OnOk result (sites.new.items ≡ sites.old.items ++ spec.start_sites (typed_program program.now) (slice_get (typed_program program.now).procs (typed_program program.now).entry)) }
{
    let entry = program.entry();
    let Some(begun) = procedure_at(program.procs(), entry) else {
        return Ok(());
    };
    add_axioms(sites, entry as usize, program.axioms())?;
    add_plain(sites, entry as usize, &begun.specs)?;
    Ok(())
}

/// Where the item stands at each place of the program, in the order of their numbers, which count from 1.
pub(crate) fn sites_of(alloc: Global, program: &Typed) -> Result<Vec<Site>, AllocError>
    ensures { IfOk result (λ sites. sites.items ≡ spec.place_sites (typed_program program.now)) }
{
    let procs = program.procs();
    let mut sites = Vec::new(alloc);
    add_start(&mut sites, program)?;
    for proc in 0..procs.len() {
        add_procedure(&mut sites, procs, proc, &procs[proc])?;
    }
    Ok(sites)
}
