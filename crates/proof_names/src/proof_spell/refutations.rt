//! Refutations as they are written.

ghost use Rattle.std.specs.Prelude.{◌≡◌, IfOk, IsTrue, Some, map};
ghost use Rattle.std.specs.List.{AllByRecursion};
ghost use Rattle.math_facts.specs.Fits.{Fits};
ghost use Rattle.farkas_check.specs.Nodes.{plain, is_tree};
ghost use Rattle.proof_form.specs.Refutations as form;
ghost use Rattle.proof_names.specs.Refutations.{refutation_of};
ghost use Rattle.proof_names.specs.ProofSpell.Correspond.{Correspond};
ghost use Rattle.proof_names.specs.ProofSpell.Nodes.{HasNumbers, SpellsPart, SpellsBranch};

use crate::proof_spell::numerals::{integer, natural};
use farkas_check::{Node, Refutation};
use proof_form::{Numeral, RNode};
use std::alloc::{AllocError, Global};

/// A part of a leaf.
fn part_line(alloc: Global, part: (u32, i128)) -> Result<(Numeral, Numeral), AllocError>
    requires { Fits part.1 }
    ensures { IfOk result (λ p. SpellsPart p part) }
{
    let row = natural(alloc, u64::from(part.0))?;
    let multiplier = integer(alloc, part.1)?;
    Ok((row, multiplier))
}

/// The parts of a leaf.
fn part_lines(alloc: Global, parts: &[(u32, i128)]) -> Result<Vec<(Numeral, Numeral)>, AllocError>
    requires { AllByRecursion (λ p. Fits p.1) parts.now }
    ensures { IfOk result (λ v. Correspond SpellsPart v.items parts.now) }
{
    let mut lines = Vec::with_capacity(alloc, parts.len())?;
    for part in parts {
        lines.push(part_line(alloc, *part)?)?;
    }
    Ok(lines)
}

/// A node of a refutation.
fn node_line(alloc: Global, node: &Node) -> Result<RNode, AllocError>
    requires { HasNumbers (plain node.now) }
    ensures { IfOk result (λ n. SpellsBranch (form.plain_refutation_node n) (plain node.now)) }
{
    match node {
        Node::Leaf(parts) => Ok(RNode::Leaf(part_lines(alloc, parts)?)),
        Node::Cut { col, k } => Ok(RNode::Cut {
            col: natural(alloc, u64::from(*col))?,
            k: integer(alloc, *k)?,
        }),
        Node::Cases(members) => Ok(RNode::Cases(*members)),
    }
}

/// The nodes of a refutation as they are written, in its order: those of a refutation in the grammar, which name this one again. Each
/// leaf must have a part, and each multiplier and each number of a cut must fit, as they do where a system is refuted. An error comes
/// only where memory ran out.
pub fn node_lines(alloc: Global, refutation: &Refutation) -> Result<Vec<RNode>, AllocError>
    requires { AllByRecursion HasNumbers refutation.now }
    ensures spells { IfOk result (λ v. Correspond (λ n. SpellsBranch (form.plain_refutation_node n)) v.items refutation.now) }
    ensures whole { IsTrue (is_tree refutation.now) }
    ensures valid { IfOk result (λ v. IsTrue (form.is_refutation (map form.plain_refutation_node v.items))) }
    ensures named { IfOk result (λ v. refutation_of (map form.plain_refutation_node v.items) ≡ Some refutation.now) }
{
    let nodes = refutation.nodes();
    let mut lines = Vec::with_capacity(alloc, nodes.len())?;
    for node in nodes {
        lines.push(node_line(alloc, node)?)?;
    }
    Ok(lines)
}
