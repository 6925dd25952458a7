//! The labels of a body.

ghost use Rattle.std.specs.Prelude.{◌≡◌, ◌++◌, true, OnOk, IfOk, IfErr};
ghost use Rattle.boogie_tree.specs.View as view;
ghost use Rattle.boogie_types.specs.Ties.Numbers.{named_by, texts, IsTwiceFault};
ghost use Rattle.boogie_types.specs.Sorted.{labels_in, block_labels, labels_if_any};
ghost use Rattle.boogie_types.specs.Resolved.{is_set};
ghost use Rattle.boogie_types.specs.Ties.Bodies.{body_by};

use crate::numbered::Numbered;
use boogie_tree::{Body, Name, Stmt};
use std::alloc::{AllocError, Global};
use typed_tree::TypeFault;

/// Puts the labels of a statement behind the others, in text order.
#[cycle(label_names)]
fn add_inside<'a>(names: &mut Vec<&'a Name>, statement: &'a Stmt) -> Result<(), AllocError>
    ensures { OnOk result (named_by names.new.items ≡ named_by names.old.items ++ labels_in (view.statement statement.entry.now)) }
{
    match statement {
        Stmt::If(_, _, then, otherwise) => {
            add_labels(names, then)?;
            add_labels(names, otherwise)
        }
        Stmt::While(_, _, _, body) => add_labels(names, body),
        Stmt::Label(name) => {
            names.push(name)?;
            Ok(())
        }
        Stmt::Assert(_, _)
        | Stmt::Assume(_, _)
        | Stmt::Havoc(_, _)
        | Stmt::Assign(_, _, _)
        | Stmt::Call(_, _, _, _)
        | Stmt::Break(_, _)
        | Stmt::Goto(_, _)
        | Stmt::Return(_) => Ok(()),
    }
}

/// Puts the labels of statements behind the others, in text order.
#[cycle(label_names)]
fn add_labels<'a>(names: &mut Vec<&'a Name>, statements: &'a [Stmt]) -> Result<(), AllocError>
    ensures { OnOk result (named_by names.new.items ≡ named_by names.old.items ++ block_labels (view.statements statements.entry.now)) }
{
    for each in statements {
        add_inside(names, each)?;
    }
    Ok(())
}

/// The labels of a body, in text order.
fn names_of_labels<'a>(alloc: Global, body: Option<&'a Body>) -> Result<Vec<&'a Name>, AllocError>
    ensures { IfOk result (λ v. named_by v.items ≡ labels_if_any (body_by body.entry)) }
{
    let mut names = Vec::new(alloc);
    if let Some(body) = body {
        add_labels(&mut names, &body.stmts)?;
    }
    Ok(names)
}

/// The numbers of the labels of a body; the first that stands there already is the fault.
pub(crate) fn numbered_labels<'a>(
    alloc: Global,
    body: Option<&'a Body>,
) -> Result<Numbered<'a>, TypeFault>
    ensures ok { IfOk result (λ l. l ≡ texts (labels_if_any (body_by body.entry))) }
    ensures set { IfOk result (λ _. is_set (labels_if_any (body_by body.entry)) ≡ true) }
    ensures fault { IfErr result (λ f. IsTwiceFault (labels_if_any (body_by body.entry)) f) }
{
    let names = names_of_labels(alloc, body)?;
    Numbered::new(alloc, names)
}
