//! Whole programs with contracts.

ghost use Rattle.std.specs.Prelude.{◌≡◌, IfOk, map};
ghost use Rattle.boogie_tree.specs.View as tree;
ghost use Rattle.typed_tree.specs.TypingRules.TypedParts.{typed_program};
ghost use Rattle.proof_names.specs.Outlines.{node};
ghost use Rattle.explained_proof.specs.Explained as spec;
ghost use Rattle.explained_proof.specs.Known.{known_of};
ghost use Rattle.explained_proof.specs.Ties.Views as view;

use crate::knowledge::Knowledge;
use crate::procedures::Telling;
use boogie_tree::{Decl, Program};
use letter_acts::Icfg;
use proof_form::Annotation;
use proof_names::NamedNode;
use std::alloc::{AllocError, Global};
use typed_tree::typing_rules::Typed;

/// A declaration with what is known of it.
fn declaration(telling: &Telling<'_>, given: Decl) -> Result<Decl, AllocError>
    ensures { IfOk result (λ out. tree.declaration out ≡ spec.explained_declaration (view.told telling.now) (tree.declaration given)) }
{
    match given {
        Decl::Procedure(procedure) => Ok(Decl::Procedure(telling.declared_named(procedure)?)),
        Decl::Implementation(procedure) => {
            Ok(Decl::Implementation(telling.implemented_named(procedure)?))
        }
        other => Ok(other),
    }
}

/// Declarations with what is known of them.
fn declarations(telling: &Telling<'_>, given: Vec<Decl>) -> Result<Vec<Decl>, AllocError>
    ensures { IfOk result (λ out. map tree.declaration out.items ≡ spec.explained (view.told telling.now) (map tree.declaration given.items)) }
{
    let mut out = Vec::with_capacity(telling.alloc, given.len())?;
    for each in given {
        out.push(declaration(telling, each)?)?;
    }
    Ok(out)
}

/// The program of a tree with what an annotation of its graph knows of it, in contracts, invariants and assertions. The nodes are those that the
/// annotation names.
pub fn explained(
    alloc: Global,
    given: Program,
    program: &Typed,
    icfg: &Icfg,
    annotation: &Annotation,
    nodes: &[NamedNode],
) -> Result<Program, AllocError>
    ensures { IfOk result (λ out. tree.program out ≡
        spec.explained (record { program = typed_program program.now; graph = icfg.now; known = known_of icfg.now annotation.now (map node nodes.now) }) (tree.program given)) }
{
    let knowledge = Knowledge::of(alloc, icfg, annotation, nodes)?;
    let telling = Telling {
        alloc,
        program,
        icfg,
        knowledge: &knowledge,
    };
    let Program { decls } = given;
    let decls = declarations(&telling, decls)?;
    Ok(Program { decls })
}
