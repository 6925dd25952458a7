//! The lines of nodes.

ghost use Rattle.std.specs.Prelude.{IfOk};
ghost use Rattle.proof_form.specs.Lines as lines;
ghost use Rattle.proof_names.specs.Outlines as outlines;
ghost use Rattle.proof_names.specs.ProofSpell.Correspond.{Correspond};
ghost use Rattle.proof_names.specs.ProofSpell.Drafts.{AscendFrom};
ghost use Rattle.proof_names.specs.ProofSpell.Spelled.{SpellsNode, WritesIndex};

use crate::NamedNode;
use crate::proof_spell::numerals::{index, short};
use proof_form::{NodeLine, Numeral};
use std::alloc::{AllocError, Global};

/// The predicates of a node.
fn pred_lines(alloc: Global, preds: &[usize]) -> Result<Vec<Numeral>, AllocError>
    ensures { IfOk result (λ v. Correspond WritesIndex v.items preds.now) }
{
    let mut lines = Vec::with_capacity(alloc, preds.len())?;
    for pred in preds {
        lines.push(index(alloc, *pred)?)?;
    }
    Ok(lines)
}

/// The line of a node.
pub(crate) fn node_line(alloc: Global, node: &NamedNode) -> Result<NodeLine, AllocError>
    requires { AscendFrom 1 node.now.preds.items }
    ensures { IfOk result (λ line. SpellsNode (lines.node line) (outlines.node node.now)) }
{
    Ok(NodeLine {
        place: short(alloc, node.place)?,
        entry: index(alloc, node.entry)?,
        preds: pred_lines(alloc, &node.preds)?,
    })
}
