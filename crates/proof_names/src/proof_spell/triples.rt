//! The lines of triples.

ghost use Rattle.std.specs.Prelude.{List, IfOk, IsTrue};
ghost use Rattle.std.specs.List.{AllByRecursion};
ghost use Rattle.farkas_check.specs.Nodes.{PlainNode, is_tree};
ghost use Rattle.proof_form.specs.Lines as lines;
ghost use Rattle.proof_form.specs.Refutations as form;
ghost use Rattle.proof_names.specs.declared.outlines.Listed.TheVariants.{Inside, Call, Back};
ghost use Rattle.proof_names.specs.ProofSpell.Correspond.{Correspond};
ghost use Rattle.proof_names.specs.ProofSpell.Nodes.{HasNumbers, SpellsBranch};
ghost use Rattle.proof_names.specs.ProofSpell.Drafts.{plain};
ghost use Rattle.proof_names.specs.ProofSpell.Spelled.{SpellsTriple};

use crate::Listed;
use crate::proof_spell::drafts::Shown;
use crate::proof_spell::numerals::{index, move_numerals};
use crate::proof_spell::refutations::node_lines;
use proof_form::{RNode, TripleLine};
use std::alloc::{AllocError, Global};

/// The line of a triple.
pub(crate) fn triple_line(alloc: Global, shown: &Shown<'_>) -> Result<TripleLine, AllocError>
    requires { AllByRecursion HasNumbers shown.now.proof.now }
    ensures { IfOk result (λ line. SpellsTriple (lines.triple line) (plain shown.now)) }
{
    let proof = node_lines(alloc, shown.proof)?;
    match shown.listed {
        Listed::Inside { from, letter, to } => inside_line(alloc, from, letter, to, proof),
        Listed::Call { from, letter, to } => call_line(alloc, from, letter, to, proof),
        Listed::Back {
            exit,
            before,
            letter,
            to,
        } => back_line(alloc, exit, before, letter, to, proof),
    }
}

/// The line of a triple inside a procedure, which these nodes refute.
fn inside_line(
    alloc: Global,
    from: usize,
    letter: u32,
    to: usize,
    proof: Vec<RNode>,
) -> Result<TripleLine, AllocError>
    ensures { (ns : List PlainNode) → Correspond (λ n. SpellsBranch (form.plain_refutation_node n)) proof.items ns → IsTrue (is_tree ns) →
        IfOk result (λ line. SpellsTriple (lines.triple line) (record { listed = Inside from letter to; proof = ns })) }
{
    let (from, letter, to) = move_numerals(alloc, from, letter, to)?;
    Ok(TripleLine::Inside {
        from,
        letter,
        to,
        proof,
    })
}

/// The line of a triple of a call, which these nodes refute.
fn call_line(
    alloc: Global,
    from: usize,
    letter: u32,
    to: usize,
    proof: Vec<RNode>,
) -> Result<TripleLine, AllocError>
    ensures { (ns : List PlainNode) → Correspond (λ n. SpellsBranch (form.plain_refutation_node n)) proof.items ns → IsTrue (is_tree ns) →
        IfOk result (λ line. SpellsTriple (lines.triple line) (record { listed = Call from letter to; proof = ns })) }
{
    let (from, letter, to) = move_numerals(alloc, from, letter, to)?;
    Ok(TripleLine::Call {
        from,
        letter,
        to,
        proof,
    })
}

/// The line of a triple of a return, which these nodes refute.
fn back_line(
    alloc: Global,
    exit: usize,
    before: usize,
    letter: u32,
    to: usize,
    proof: Vec<RNode>,
) -> Result<TripleLine, AllocError>
    ensures { (ns : List PlainNode) → Correspond (λ n. SpellsBranch (form.plain_refutation_node n)) proof.items ns → IsTrue (is_tree ns) →
        IfOk result (λ line. SpellsTriple (lines.triple line) (record { listed = Back exit before letter to; proof = ns })) }
{
    let exit = index(alloc, exit)?;
    let (before, letter, to) = move_numerals(alloc, before, letter, to)?;
    Ok(TripleLine::Back {
        exit,
        before,
        letter,
        to,
        proof,
    })
}
