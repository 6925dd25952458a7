ghost use Rattle.std.specs.Prelude.{ℕ, ℤ, ◌↔◌, [], ◌∷◌, IsTrue, IfOk};
ghost use Rattle.lin_rows.specs.Systems.{Meets};
ghost use Rattle.farkas_check.specs.Nodes.{leaf, plain_nodes};
ghost use Rattle.farkas_check.specs.Refutes.{Refutes};

use crate::leaves::contradicts_tightened;
use crate::refutations::{Node, Refutation};
use crate::walk::Walk;
use lin_rows::System;
use std::alloc::{AllocError, Global};

/// Whether the tree refutes the system. If it does, no whole point meets the system (Farkas, 1902; Gomory, 1958).
/// Its time is linear in the nodes of the tree, the rows of the members that it passes, and what merging the rows of its
/// leaves costs.
pub fn check(alloc: Global, system: &System, proof: &Refutation) -> Result<bool, AllocError>
    ensures exact { IfOk result (λ yes. IsTrue yes ↔ Refutes proof.now system.now) }
    ensures sound { IfOk result (λ yes. IsTrue yes → (point : ℕ → ℤ) → Meets point system.now → ⊥) }
{
    nodes_refute(alloc, proof.nodes(), system)
}

/// Whether the nodes refute the system. A leaf alone, as most refutations are, needs no walk.
fn nodes_refute(alloc: Global, nodes: &[Node], system: &System) -> Result<bool, AllocError>
    ensures { IfOk result (λ yes. IsTrue yes ↔ Refutes (plain_nodes nodes.now) system.now) }
{
    if let [node] = nodes {
        if let Node::Leaf(parts) = node {
            return leaf_refutes(alloc, parts, system);
        }
    }
    tree_refutes(alloc, nodes, system)
}

/// Whether a leaf with these parts refutes the system.
fn leaf_refutes(alloc: Global, parts: &[(u32, i128)], system: &System) -> Result<bool, AllocError>
    ensures { IfOk result (λ yes. IsTrue yes ↔ Refutes (leaf parts.now ∷ []) system.now) }
{
    contradicts_tightened(alloc, &system.rows, parts)
}

/// Whether the nodes refute the system, which are walked along.
fn tree_refutes(alloc: Global, nodes: &[Node], system: &System) -> Result<bool, AllocError>
    ensures { IfOk result (λ yes. IsTrue yes ↔ Refutes (plain_nodes nodes.now) system.now) }
{
    let mut walk = Walk::new(alloc, system)?;
    for node in nodes {
        if !walk.step(node)? {
            return Ok(false);
        }
    }
    Ok(!walk.take_goal()?)
}
