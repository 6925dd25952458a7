//! Where edges lead, whatever their letters.

ghost use Rattle.std.specs.Prelude.{◌↔◌, ℕ, nat_eq, IfOk, OnOk};
ghost use Rattle.nwa_reduce.specs.Ties.Rows.{row_of};
ghost use Rattle.nwa_base.specs.Members.{Member};
ghost use Rattle.nwa_reduce.specs.Ways.{Leads};
ghost use Rattle.nwa_reduce.specs.Ties.Levels.{Stays};
ghost use Rattle.nwa_reduce.specs.Ties.Searching.{AddsSteps};

use crate::rows::Rows;
use nwa_base::{Letter, Nwa};
use std::alloc::{AllocError, Global};

/// The states to which edges lead, grouped by the state from which they do.
pub fn successors(alloc: Global, nwa: &Nwa) -> Result<Rows<u32>, AllocError>
    ensures { IfOk result (λ g. (q e : ℕ) → Member (row_of g.rows.items q) e ↔ Leads nwa.now q e) }
{
    let mut steps = Rows::new(alloc);
    add_ends(&mut steps, nwa.insides())?;
    add_ends(&mut steps, nwa.calls())?;
    add_back_ends(&mut steps, nwa.backs())?;
    Ok(steps)
}

/// The states from which edges lead, grouped by the state to which they do.
pub fn predecessors(alloc: Global, nwa: &Nwa) -> Result<Rows<u32>, AllocError>
    ensures { IfOk result (λ g. (q e : ℕ) → Member (row_of g.rows.items e) q ↔ Leads nwa.now q e) }
{
    let mut steps = Rows::new(alloc);
    add_starts(&mut steps, nwa.insides())?;
    add_starts(&mut steps, nwa.calls())?;
    add_back_starts(&mut steps, nwa.backs())?;
    Ok(steps)
}

/// The states to which steps lead that stay in the call, grouped by the state from which they do.
pub fn steps_in_call(alloc: Global, nwa: &Nwa) -> Result<Rows<u32>, AllocError>
    ensures { IfOk result (λ g. (q e : ℕ) → Member (row_of g.rows.items q) e ↔ Stays nwa.now q e) }
{
    let mut steps = Rows::new(alloc);
    add_ends(&mut steps, nwa.insides())?;
    add_return_ends(&mut steps, nwa.backs())?;
    Ok(steps)
}

fn add_ends(steps: &mut Rows<u32>, edges: &[(u32, Letter, u32)]) -> Result<(), AllocError>
    ensures { OnOk result (AddsSteps (λ x. x.0) (λ x. x.2) edges.now (λ q. row_of steps.old.rows.items q) (λ q. row_of steps.new.rows.items q)) }
{
    for &(state, _, end) in edges {
        steps.add(state, end)?;
    }
    Ok(())
}

fn add_back_ends(steps: &mut Rows<u32>, edges: &[(u32, u32, Letter, u32)]) -> Result<(), AllocError>
    ensures { OnOk result (AddsSteps (λ x. x.0) (λ x. x.3) edges.now (λ q. row_of steps.old.rows.items q) (λ q. row_of steps.new.rows.items q)) }
{
    for &(state, _, _, end) in edges {
        steps.add(state, end)?;
    }
    Ok(())
}

fn add_return_ends(
    steps: &mut Rows<u32>,
    edges: &[(u32, u32, Letter, u32)],
) -> Result<(), AllocError>
    ensures { OnOk result (AddsSteps (λ x. x.1) (λ x. x.3) edges.now (λ q. row_of steps.old.rows.items q) (λ q. row_of steps.new.rows.items q)) }
{
    for &(_, before, _, end) in edges {
        steps.add(before, end)?;
    }
    Ok(())
}

fn add_starts(steps: &mut Rows<u32>, edges: &[(u32, Letter, u32)]) -> Result<(), AllocError>
    ensures { OnOk result (AddsSteps (λ x. x.2) (λ x. x.0) edges.now (λ q. row_of steps.old.rows.items q) (λ q. row_of steps.new.rows.items q)) }
{
    for &(state, _, end) in edges {
        steps.add(end, state)?;
    }
    Ok(())
}

fn add_back_starts(
    steps: &mut Rows<u32>,
    edges: &[(u32, u32, Letter, u32)],
) -> Result<(), AllocError>
    ensures { OnOk result (AddsSteps (λ x. x.3) (λ x. x.0) edges.now (λ q. row_of steps.old.rows.items q) (λ q. row_of steps.new.rows.items q)) }
{
    for &(state, _, _, end) in edges {
        steps.add(end, state)?;
    }
    Ok(())
}
