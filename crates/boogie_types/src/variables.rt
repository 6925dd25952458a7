//! The variables of a procedure with the body that it has.

ghost use Rattle.std.specs.Prelude.{◌≡◌, ◌++◌, true, map, OnOk, IfOk, IfErr};
ghost use Rattle.boogie_tree.specs.View as view;
ghost use Rattle.boogie_types.specs.Meanings.{variable_info};
ghost use Rattle.boogie_types.specs.Ties.Numbers.{named_by, texts, IsTwiceFault};
ghost use Rattle.boogie_types.specs.Sorted.{body_locals, declared_locals, variable_names};
ghost use Rattle.boogie_types.specs.Resolved.{is_set};
ghost use Rattle.boogie_types.specs.Ties.Bodies.{body_by};

use crate::numbered::Numbered;
use crate::sorted::info;
use boogie_tree::{Body, Name, Proc, VarInfo, Vary};
use std::alloc::{AllocError, Global};
use typed_tree::TypeFault;

/// The declared locals of a body, if there is one.
fn declared_locals<'a>(body: Option<&'a Body>) -> &'a [Vary]
    ensures { result.now ≡ body_locals (body_by body.entry) }
{
    match body {
        Some(body) => &body.locals,
        None => &[],
    }
}

/// Puts the names of variables behind the others.
fn add_names<'a>(names: &mut Vec<&'a Name>, variables: &'a [Vary]) -> Result<(), AllocError>
    ensures { OnOk result (named_by names.new.items ≡ named_by names.old.items ++ map (λ v. v.name) variables.entry.now) }
{
    for variable in variables {
        names.push(&variable.name)?;
    }
    Ok(())
}

/// Puts what is known of variables behind the others.
fn add_infos(infos: &mut Vec<VarInfo>, variables: &[Vary], constant: bool) -> Result<(), AllocError>
    ensures { OnOk result (infos.new.items ≡ infos.old.items ++ map (variable_info constant) variables.now) }
{
    for variable in variables {
        infos.push(info(variable, constant)?)?;
    }
    Ok(())
}

/// The names of the parameters, results and declared locals.
#[tactic(auto, using(crate::proofs::VariableLaws::names_are))]
fn names_of_variables<'a>(
    alloc: Global,
    procedure: &'a Proc,
    body: Option<&'a Body>,
) -> Result<Vec<&'a Name>, AllocError>
    ensures { IfOk result (λ v. named_by v.items ≡ variable_names (view.procedure procedure.entry.now) (body_by body.entry)) }
{
    let mut names = Vec::new(alloc);
    add_names(&mut names, &procedure.params)?;
    add_names(&mut names, &procedure.results)?;
    add_names(&mut names, declared_locals(body))?;
    Ok(names)
}

/// The parameters, which are constant, the results and the declared locals.
#[tactic(auto, using(crate::proofs::VariableLaws::infos_are))]
pub(crate) fn locals(
    alloc: Global,
    procedure: &Proc,
    body: Option<&Body>,
) -> Result<Vec<VarInfo>, AllocError>
    ensures { IfOk result (λ v. v.items ≡ declared_locals (view.procedure procedure.now) (body_by body.entry)) }
{
    let mut infos = Vec::new(alloc);
    add_infos(&mut infos, &procedure.params, true)?;
    add_infos(&mut infos, &procedure.results, false)?;
    add_infos(&mut infos, declared_locals(body), false)?;
    Ok(infos)
}

/// The numbers of the parameters, results and declared locals; the first name that stands there already is the fault.
pub(crate) fn numbered_variables<'a>(
    alloc: Global,
    procedure: &'a Proc,
    body: Option<&'a Body>,
) -> Result<Numbered<'a>, TypeFault>
    ensures ok { IfOk result (λ l. l ≡ texts (variable_names (view.procedure procedure.entry.now) (body_by body.entry))) }
    ensures set { IfOk result (λ _. is_set (variable_names (view.procedure procedure.entry.now) (body_by body.entry)) ≡ true) }
    ensures fault { IfErr result (λ f. IsTwiceFault (variable_names (view.procedure procedure.entry.now) (body_by body.entry)) f) }
{
    let names = names_of_variables(alloc, procedure, body)?;
    Numbered::new(alloc, names)
}
