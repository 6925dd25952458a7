//! The declarations of a program, sorted by what they declare.

ghost use Rattle.std.specs.Prelude.{◌≡◌, map, IfOk};
ghost use Rattle.boogie_tree.specs.View as view;
ghost use Rattle.boogie_types.specs.Ties.Numbers.{named_by};
ghost use Rattle.boogie_types.specs.Ties.Referred.{expressions_by, procedures_by};
ghost use Rattle.boogie_types.specs.Meanings.{variable_info};
ghost use Rattle.boogie_types.specs.Sorted.{declared_globals, global_names, axioms_of, procedures_of, implementations_of};

use boogie_tree::{Decl, Expr, Name, Proc, VarInfo, Vary};
use std::alloc::{AllocError, Global};

/// What is known of a declared variable.
pub(crate) fn info(variable: &Vary, constant: bool) -> Result<VarInfo, AllocError>
    ensures { IfOk result (λ v. v ≡ variable_info constant variable.now) }
{
    Ok(VarInfo {
        name: variable.name.text.copy()?,
        ty: variable.ty,
        constant,
    })
}

/// The constants and globals, in order of declaration.
pub(crate) fn globals(alloc: Global, decls: &[Decl]) -> Result<Vec<VarInfo>, AllocError>
    ensures { IfOk result (λ v. v.items ≡ declared_globals (map view.declaration decls.now)) }
{
    let mut globals = Vec::new(alloc);
    for declaration in decls {
        match declaration {
            Decl::Const(variable) => globals.push(info(variable, true)?)?,
            Decl::Global(variable) => globals.push(info(variable, false)?)?,
            Decl::Axiom(_, _) | Decl::Procedure(_) | Decl::Implementation(_) => {}
        }
    }
    Ok(globals)
}

/// Their names.
pub(crate) fn names_of_globals(alloc: Global, decls: &[Decl]) -> Result<Vec<&Name>, AllocError>
    ensures { IfOk result (λ v. named_by v.items ≡ global_names (map view.declaration decls.now)) }
{
    let mut names = Vec::new(alloc);
    for declaration in decls {
        match declaration {
            Decl::Const(variable) | Decl::Global(variable) => names.push(&variable.name)?,
            Decl::Axiom(_, _) | Decl::Procedure(_) | Decl::Implementation(_) => {}
        }
    }
    Ok(names)
}

/// The axioms, in order.
pub(crate) fn axioms(alloc: Global, decls: &[Decl]) -> Result<Vec<&Expr>, AllocError>
    ensures { IfOk result (λ v. expressions_by v.items ≡ axioms_of (map view.declaration decls.now)) }
{
    let mut axioms = Vec::new(alloc);
    for declaration in decls {
        if let Decl::Axiom(_, axiom) = declaration {
            axioms.push(axiom)?;
        }
    }
    Ok(axioms)
}

/// The procedures, in order.
pub(crate) fn procedures(alloc: Global, decls: &[Decl]) -> Result<Vec<&Proc>, AllocError>
    ensures { IfOk result (λ v. procedures_by v.items ≡ procedures_of (map view.declaration decls.now)) }
{
    let mut procedures = Vec::new(alloc);
    for declaration in decls {
        if let Decl::Procedure(procedure) = declaration {
            procedures.push(procedure)?;
        }
    }
    Ok(procedures)
}

/// The implementations, in order.
pub(crate) fn implementations(alloc: Global, decls: &[Decl]) -> Result<Vec<&Proc>, AllocError>
    ensures { IfOk result (λ v. procedures_by v.items ≡ implementations_of (map view.declaration decls.now)) }
{
    let mut implementations = Vec::new(alloc);
    for declaration in decls {
        if let Decl::Implementation(implementation) = declaration {
            implementations.push(implementation)?;
        }
    }
    Ok(implementations)
}

/// The names of procedures or implementations.
pub(crate) fn names_of<'a>(
    alloc: Global,
    procedures: &[&'a Proc],
) -> Result<Vec<&'a Name>, AllocError>
    ensures { IfOk result (λ v. named_by v.items ≡ map (λ p. p.name) (procedures_by procedures.now)) }
{
    let mut names = Vec::new(alloc);
    for procedure in procedures {
        names.push(&procedure.name)?;
    }
    Ok(names)
}
