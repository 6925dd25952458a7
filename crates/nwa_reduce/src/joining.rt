//! States before calls, and the states in those calls that returns leave.

ghost use Rattle.std.specs.Prelude.{◌≡◌, ◌∷◌, ◌↔◌, ℕ, [], IsTrue, IfOk, OnOk};
ghost use Rattle.nwa_base.specs.Members.{Member};
ghost use Rattle.nwa_reduce.specs.Ties.Rows.{row_of};
ghost use Rattle.nwa_reduce.specs.Ties.Levels.{Stays, Returns, AreJoins, JoinsOf, JoinsCallers, JoinsExits};

use crate::rows::Rows;
use crate::searching::search;
use crate::stepping::steps_in_call;
use nwa_base::{Letter, Nwa};
use std::alloc::{AllocError, Global};

/// Each state before a call, with each state in the call that a return edge leaves.
pub fn joins(alloc: Global, nwa: &Nwa) -> Result<Vec<(u32, u32)>, AllocError>
    ensures { IfOk result (λ v. AreJoins nwa.now v.items) }
{
    let steps = steps_in_call(alloc, nwa)?;
    let mut joins = Vec::new(alloc);
    for entry in 0..nwa.states() {
        join_entry(alloc, nwa, &steps, entry, &mut joins)?;
    }
    Ok(joins)
}

/// Whether a return edge leaves a state.
pub fn returns(nwa: &Nwa, state: u32) -> bool
    ensures { IsTrue result ↔ Returns nwa.now state }
{
    !nwa.backs_leaving(state).is_empty()
}

/// Adds the states that call an entry, with the states in its calls that return edges leave.
fn join_entry(
    alloc: Global,
    nwa: &Nwa,
    steps: &Rows<u32>,
    entry: u32,
    joins: &mut Vec<(u32, u32)>,
) -> Result<(), AllocError>
    requires { (q e : ℕ) → Member (row_of steps.now.rows.items q) e ↔ Stays nwa.now q e }
    ensures { OnOk result (JoinsOf nwa.now entry joins.old.items joins.new.items) }
{
    let callers = nwa.calls_entering(entry);
    if callers.is_empty() {
        return Ok(());
    }
    let inner = search(alloc, &[entry], steps)?;
    join_all(nwa, callers, inner.as_slice(), joins)
}

/// Adds the callers with each of the states that return edges leave.
fn join_all(
    nwa: &Nwa,
    callers: &[(u32, Letter, u32)],
    inner: &[u32],
    joins: &mut Vec<(u32, u32)>,
) -> Result<(), AllocError>
    ensures { OnOk result (JoinsExits nwa.now callers.now inner.now joins.old.items joins.new.items) }
{
    for &exit in inner {
        join_exit(nwa, callers, exit, joins)?;
    }
    Ok(())
}

/// Adds the callers with a state, if return edges leave it.
fn join_exit(
    nwa: &Nwa,
    callers: &[(u32, Letter, u32)],
    exit: u32,
    joins: &mut Vec<(u32, u32)>,
) -> Result<(), AllocError>
    ensures { OnOk result (JoinsExits nwa.now callers.now (exit ∷ []) joins.old.items joins.new.items) }
{
    if !returns(nwa, exit) {
        return Ok(());
    }
    join_callers(callers, exit, joins)
}

/// Adds the callers with a state.
fn join_callers(
    callers: &[(u32, Letter, u32)],
    exit: u32,
    joins: &mut Vec<(u32, u32)>,
) -> Result<(), AllocError>
    ensures { OnOk result (JoinsCallers callers.now exit joins.old.items joins.new.items) }
{
    for &(before, _, _) in callers {
        joins.push((before, exit))?;
    }
    Ok(())
}
