//! Nodes and steps of an unwinding as those of a draft.

ghost use Rattle.std.specs.Prelude.{◌≡◌, ◌++◌, IfOk, OnOk, map};
ghost use Rattle.proof_names.specs.Outlines.{node};
ghost use Rattle.proof_build.specs.ProofUnwind.Spots.{nodes_of};
ghost use Rattle.proof_build.specs.Unwindings.{step_of, back_of, steps_of};

use crate::proof_unwind::Spot;
use nwa_base::{Letter, Nwa};
use proof_names::{NamedNode, NamedStep};
use std::alloc::{AllocError, Global};

/// Numbers as members of lists are numbered.
fn widened(alloc: Global, numbers: &[u32]) -> Result<Vec<usize>, AllocError>
    ensures { IfOk result (λ v. v.items ≡ numbers.now) }
{
    let mut wide = Vec::with_capacity(alloc, numbers.len())?;
    for number in numbers {
        wide.push(*number as usize)?;
    }
    Ok(wide)
}

/// The nodes.
pub(crate) fn named_nodes(alloc: Global, spots: &[Spot]) -> Result<Vec<NamedNode>, AllocError>
    ensures { IfOk result (λ v. map node v.items ≡ nodes_of spots.now) }
{
    let mut nodes = Vec::with_capacity(alloc, spots.len())?;
    for spot in spots {
        nodes.push(NamedNode {
            place: spot.place,
            entry: spot.entry as usize,
            preds: widened(alloc, &spot.preds)?,
        })?;
    }
    Ok(nodes)
}

/// Adds steps by inside letters or by call letters.
fn add_steps(steps: &mut Vec<NamedStep>, edges: &[(u32, Letter, u32)]) -> Result<(), AllocError>
    ensures { OnOk result (steps.new.items ≡ steps.old.items ++ map step_of edges.now) }
{
    for &edge in edges {
        steps.push(NamedStep::Step {
            from: edge.0 as usize,
            letter: edge.1.id,
            to: edge.2 as usize,
        })?;
    }
    Ok(())
}

/// Adds backs.
fn add_backs(
    steps: &mut Vec<NamedStep>,
    edges: &[(u32, u32, Letter, u32)],
) -> Result<(), AllocError>
    ensures { OnOk result (steps.new.items ≡ steps.old.items ++ map back_of edges.now) }
{
    for &edge in edges {
        steps.push(NamedStep::Back {
            exit: edge.0 as usize,
            call: edge.1 as usize,
            letter: edge.2.id,
            to: edge.3 as usize,
        })?;
    }
    Ok(())
}

/// The steps and backs.
pub(crate) fn named_steps(alloc: Global, steps: &Nwa) -> Result<Vec<NamedStep>, AllocError>
    ensures { IfOk result (λ v. v.items ≡ steps_of steps.now) }
{
    let mut named = Vec::new(alloc);
    add_steps(&mut named, steps.insides())?;
    add_steps(&mut named, steps.calls())?;
    add_backs(&mut named, steps.backs())?;
    Ok(named)
}
