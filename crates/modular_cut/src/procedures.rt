//! The procedures of a part.

ghost use Rattle.std.specs.Prelude.{◌≡◌, ◌<◌, ◌^◌, ◌++◌, ◌∷◌, [], Some, codes, length, map, slice_get, IfOk, OnOk};
ghost use Rattle.std.specs.Option.{option_map};
ghost use Rattle.typed_tree.specs.TypedView as view;
ghost use Rattle.modular_cut.specs.Parts as spec;

use crate::recalling::{Calls, statements};
use boogie_tree::Text;
use std::alloc::{AllocError, Global};
use typed_tree::copying::{plain, specifications, variables};
use typed_tree::{TProc, TStmt};

/// A procedure that says the same, under that name and with that body.
fn like(said: &TProc, name: Text, body: Option<Vec<TStmt>>) -> Result<TProc, AllocError>
    ensures { IfOk result (λ made. view.procedure made ≡ record (view.procedure said.now) { name = name; body = option_map (λ b. view.statements b.items) body }) }
{
    Ok(TProc {
        name,
        params: said.params,
        results: said.results,
        locals: variables(&said.locals)?,
        modifies: plain(&said.modifies)?,
        specs: specifications(&said.specs)?,
        body,
    })
}

/// The procedure without its body.
fn without_body(said: &TProc) -> Result<TProc, AllocError>
    ensures { IfOk result (λ made. view.procedure made ≡ spec.without_body (view.procedure said.now)) }
{
    let name = said.name.copy()?;
    like(said, name, None)
}

/// The name of the copy of a procedure.
fn copy_name(alloc: Global, name: &Text) -> Result<Text, AllocError>
    ensures { IfOk result (λ made. made ≡ codes "m:" ++ name.now) }
{
    let mut bytes = Vec::new(alloc);
    bytes.push(b'm')?;
    bytes.push(b':')?;
    bytes.extend_from_slice(name.bytes())?;
    Ok(Text::new(bytes))
}

/// The procedure that calls of this one go to in its own part.
fn copy_of(alloc: Global, said: &TProc) -> Result<TProc, AllocError>
    ensures { IfOk result (λ made. view.procedure made ≡ spec.copy_of (view.procedure said.now)) }
{
    let name = copy_name(alloc, &said.name)?;
    like(said, name, None)
}

/// The body with its calls renumbered.
fn own_body(calls: &Calls, body: &Option<Vec<TStmt>>) -> Result<Option<Vec<TStmt>>, AllocError>
    ensures { IfOk result (λ made. option_map (λ b. view.statements b.items) made ≡ option_map (spec.recalled_block (spec.called_in calls.now.copy calls.now.own)) (option_map (λ b. view.statements b.items) body.now)) }
{
    match body {
        None => Ok(None),
        Some(parts) => Ok(Some(statements(calls, parts)?)),
    }
}

/// The procedure with its calls renumbered.
fn own_procedure(calls: &Calls, said: &TProc) -> Result<TProc, AllocError>
    ensures { IfOk result (λ made. view.procedure made ≡ spec.own_procedure (spec.called_in calls.now.copy calls.now.own) (view.procedure said.now)) }
{
    let name = said.name.copy()?;
    let body = own_body(calls, &said.body)?;
    like(said, name, body)
}

/// Puts these procedures, without their bodies, behind the others.
fn add_bare(made: &mut Vec<TProc>, procs: &[TProc]) -> Result<(), AllocError>
    ensures { OnOk result (map view.procedure made.new.items ≡ map view.procedure made.old.items ++ map spec.without_body (map view.procedure procs.now)) }
{
    for said in procs {
        made.push(without_body(said)?)?;
    }
    Ok(())
}

/// The procedures of the part of procedure `own`: it alone keeps its body, and its copy comes last.
pub(crate) fn cut_procedures(
    alloc: Global,
    procs: &[TProc],
    own: u32,
) -> Result<Vec<TProc>, AllocError>
    requires within { own < length procs.now }
    requires few { length procs.now < 2 ^ 32 }
    ensures { IfOk result (λ made. map view.procedure made.items ≡
        spec.cut_procs (spec.called_in (length procs.now) own) own (map view.procedure procs.now) ++ spec.copies (slice_get (map view.procedure procs.now) own)) }
{
    let calls = Calls {
        own,
        copy: procs.len() as u32,
    };
    let number = own as usize;
    let mut made = Vec::with_capacity(alloc, procs.len() + 1)?;
    add_bare(&mut made, &procs[..number])?;
    made.push(own_procedure(&calls, &procs[number])?)?;
    add_bare(&mut made, &procs[number + 1..])?;
    made.push(copy_of(alloc, &procs[number])?)?;
    Ok(made)
}
