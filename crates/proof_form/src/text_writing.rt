//! The text of an annotation is written line by line.

ghost use Rattle.std.specs.Prelude.{◌≡◌, ◌++◌, map, OnOk, IfOk, IsTrue};
ghost use Rattle.std.specs.List.{list_all, flat_map};
ghost use Rattle.proof_form.specs.Lines as lines;
ghost use Rattle.proof_form.specs.Annotations.{numbered, item_lines, ended, coarse_line, form_lines, safe_text};

use crate::annotations::Annotation;
use crate::line_writing::{push_node, push_pred, push_step, push_triple};
use crate::lines::{NodeLine, PredLine, StepLine, TripleLine, push_decimal};
use std::alloc::{AllocError, Global};

/// Writes the lines of the predicates, from number 2 on.
fn push_preds(out: &mut Vec<u8>, preds: &[PredLine]) -> Result<(), AllocError>
    requires { IsTrue (list_all lines.is_pred (map lines.pred preds.now)) }
    ensures { OnOk result (out.new.items ≡ out.old.items ++ flat_map ended (numbered lines.pred_text 2 (map lines.pred preds.now))) }
{
    for (i, pred) in preds.iter().enumerate() {
        push_pred(out, i as u64 + 2, pred)?;
        out.push(b'\n')?;
    }
    Ok(())
}

/// Writes the lines of the triples.
fn push_triples(out: &mut Vec<u8>, triples: &[TripleLine]) -> Result<(), AllocError>
    requires { IsTrue (list_all lines.is_triple (map lines.triple triples.now)) }
    ensures { OnOk result (out.new.items ≡ out.old.items ++ flat_map ended (map lines.triple_text (map lines.triple triples.now))) }
{
    for triple in triples {
        push_triple(out, triple)?;
        out.push(b'\n')?;
    }
    Ok(())
}

/// Writes the lines of the nodes, from number 0 on.
fn push_nodes(out: &mut Vec<u8>, nodes: &[NodeLine]) -> Result<(), AllocError>
    ensures { OnOk result (out.new.items ≡ out.old.items ++ flat_map ended (numbered lines.node_text 0 (map lines.node nodes.now))) }
{
    for (i, node) in nodes.iter().enumerate() {
        push_node(out, i as u64, node)?;
        out.push(b'\n')?;
    }
    Ok(())
}

/// Writes the lines of the steps.
fn push_steps(out: &mut Vec<u8>, steps: &[StepLine]) -> Result<(), AllocError>
    ensures { OnOk result (out.new.items ≡ out.old.items ++ flat_map ended (map lines.step_text steps.now)) }
{
    for step in steps {
        push_step(out, step)?;
        out.push(b'\n')?;
    }
    Ok(())
}

/// Writes the lines behind the header, before the end.
fn push_items(out: &mut Vec<u8>, proof: &Annotation) -> Result<(), AllocError>
    ensures { OnOk result (out.new.items ≡ out.old.items ++ flat_map ended (item_lines proof.now)) }
{
    push_preds(out, proof.preds())?;
    push_triples(out, proof.triples())?;
    push_nodes(out, proof.nodes())?;
    push_steps(out, proof.steps())
}

/// Writes the line of a coarse letter.
fn push_coarse(out: &mut Vec<u8>, letter: u32) -> Result<(), AllocError>
    ensures { OnOk result (out.new.items ≡ out.old.items ++ ended (coarse_line letter)) }
{
    out.extend_from_slice(b"coarse ")?;
    push_decimal(out, u64::from(letter))?;
    out.push(b'\n')?;
    Ok(())
}

/// Writes the lines of coarse letters.
fn push_letters(out: &mut Vec<u8>, coarse: &[u32]) -> Result<(), AllocError>
    ensures { OnOk result (out.new.items ≡ out.old.items ++ flat_map ended (map coarse_line coarse.now)) }
{
    for letter in coarse {
        push_coarse(out, *letter)?;
    }
    Ok(())
}

/// Writes the lines between that of the rounds and those of the items.
fn push_form(out: &mut Vec<u8>, coarse: &[u32]) -> Result<(), AllocError>
    ensures { OnOk result (out.new.items ≡ out.old.items ++ flat_map ended (form_lines coarse.now)) }
{
    if coarse.is_empty() {
        out.extend_from_slice(b"annotation 1\n")?;
        return Ok(());
    }
    out.extend_from_slice(b"annotation 2\n")?;
    push_letters(out, coarse)
}

/// Writes an annotation, how many rounds found it, and the letters that are told to be coarse.
pub fn write_safe(
    alloc: Global,
    rounds: u64,
    coarse: &[u32],
    proof: &Annotation,
) -> Result<Vec<u8>, AllocError>
    ensures { IfOk result (λ v. v.items ≡ safe_text rounds coarse.now proof.now) }
{
    let mut out = Vec::from_slice(alloc, b"safe\nrounds ")?;
    push_decimal(&mut out, rounds)?;
    out.push(b'\n')?;
    push_form(&mut out, coarse)?;
    push_items(&mut out, proof)?;
    out.extend_from_slice(b"end\n")?;
    Ok(out)
}
