//! Procedures with their names replaced.

ghost use Rattle.std.specs.Prelude.{◌≡◌, ◌+◌, ◌≤◌, ◌++◌, Some, None, true, map, take, length, IfOk, IfErr};
ghost use Rattle.std.specs.Option.{option_map};
ghost use Rattle.boogie_tree.specs.View as view;
ghost use Rattle.typed_tree.specs.TypedView as typed;
ghost use Rattle.typed_tree.specs.Scope.{seen};
ghost use Rattle.boogie_types.specs.Meanings.{variable_info};
ghost use Rattle.boogie_types.specs.Sorted.{body_of, procedures_of, declared_locals, labels_if_any, hidden_locals};
ghost use Rattle.boogie_types.specs.Ties.Numbers.{info_names, texts, IsMemoryFault};
ghost use Rattle.boogie_types.specs.Ties.NamingFaults.{IsProcedureFault};
ghost use Rattle.boogie_types.specs.Ties.Referred.{procedures_by};
ghost use Rattle.boogie_types.specs.Resolved as resolved;
ghost use Rattle.boogie_types.specs.Resolved.{named_procedure, has_sets, named_specifications, named_modifies, hidden_count};
ghost use Rattle.boogie_types.specs.Ties.DeclaredView.{declarations_of, place_in};
ghost use Rattle.boogie_types.specs.Ties.Bodies.{body_by, body_at, hidden_at, IsBodyFault};
ghost use Rattle.boogie_types.specs.Ties.ProcedureFaults.{IsProcedureRefused};

use crate::bodies::{NamedBody, named_body};
use crate::declared::Declared;
use crate::hidden::add_hidden;
use crate::label_names::numbered_labels;
use crate::modifies::modifies;
use crate::names::Names;
use crate::numbered::{Numbered, number_of};
use crate::places::Placed;
use crate::specifications::specifications;
use crate::variables::{locals, numbered_variables};
use boogie_tree::{Body, Proc, VarInfo};
use std::alloc::Global;
use typed_tree::{Scope, TProc, TSpec, TypeFault};

/// What a place sees of a procedure's locals beside all constants and globals.
fn seen_by<'a, 'b>(
    declared: &Declared<'a, 'b>,
    variables: &'b Numbered<'a>,
    locals: &'b [VarInfo],
    old: bool,
) -> Names<'a, 'b>
    requires { take (length locals.now) variables.now ≡ info_names locals.now }
    ensures { seen result.scope ≡ record { globals = declared.now.globals.now; variables = true; locals = locals.entry.now; old = old } }
{
    Names {
        globals: declared.global_numbers,
        locals: variables,
        scope: Scope {
            globals: declared.globals,
            variables: true,
            locals,
            old,
        },
    }
}

/// The specifications of a procedure that are no modifies lists. Its locals begin with the parameters and the results.
fn specifications_inside<'a>(
    alloc: Global,
    declared: &Declared<'a, '_>,
    procedure: &Proc,
    variables: &Numbered<'a>,
    locals: &[VarInfo],
) -> Result<Vec<TSpec>, TypeFault>
    requires variables_are { variables.now ≡ info_names locals.now }
    requires enough { length (view.procedure procedure.now).params + length (view.procedure procedure.now).results ≤ length locals.now }
    requires params_are { take (length (view.procedure procedure.now).params) locals.now ≡ map (variable_info true) (view.procedure procedure.now).params }
    requires results_are { take (length (view.procedure procedure.now).params + length (view.procedure procedure.now).results) locals.now ≡ declared_locals (view.procedure procedure.now) None }
    ensures ok { IfOk result (λ v. named_specifications (declarations_of declared.now) (view.procedure procedure.now) (view.procedure procedure.now).specs ≡ Some (map typed.specification v.items)) }
    ensures fault { IfErr result (λ f. IsProcedureFault (declarations_of declared.now) (view.procedure procedure.now) f) }
{
    let params = procedure.params.len();
    let results = procedure.results.len();
    let before = seen_by(declared, variables, &locals[..params], false);
    let after = seen_by(declared, variables, &locals[..params + results], true);
    specifications(alloc, &before, &after, &procedure.specs)
}

/// The body of a procedure, if it has one, with all locals that are not hidden.
fn body_inside<'a, 'b>(
    alloc: Global,
    declared: &Declared<'a, 'b>,
    variables: &'b Numbered<'a>,
    labels: &'b Numbered<'a>,
    locals: &'b [VarInfo],
    body: Option<&'a Body>,
) -> Result<NamedBody, TypeFault>
    requires { variables.now ≡ info_names locals.now }
    ensures ok { IfOk result (λ n. body_at (place_in declared.now locals.now labels.now) (body_by body.entry) ≡ Some (option_map (λ b. typed.statements b.items) n.stmts)) }
    ensures hidden { IfOk result (λ n. n.hidden ≡ hidden_at (place_in declared.now locals.now labels.now) (body_by body.entry)) }
    ensures fault { IfErr result (λ f. IsBodyFault (place_in declared.now locals.now labels.now) (body_by body.entry) f) }
{
    let count = number_of(locals.len())?;
    let place = Placed {
        names: seen_by(declared, variables, locals, true),
        procs: declared.procs,
        numbers: declared.proc_numbers,
        labels,
        declared: count,
    };
    named_body(alloc, &place, body)
}

/// What a procedure says of itself, and its body.
#[derive(Drop)]
struct Parts {
    modifies: Vec<u32>,
    specs: Vec<TSpec>,
    body: NamedBody,
}

/// The parts of a procedure with their names replaced.
fn make_parts<'a>(
    alloc: Global,
    declared: &Declared<'a, '_>,
    procedure: &Proc,
    body: Option<&'a Body>,
    variables: &Numbered<'a>,
    labels: &Numbered<'a>,
    locals: &[VarInfo],
) -> Result<Parts, TypeFault>
    requires procs_are { procedures_by declared.now.procs.now ≡ procedures_of (declarations_of declared.now) }
    requires body_is { body_by body ≡ body_of (declarations_of declared.now) (view.procedure procedure.now) }
    requires locals_are { locals.now ≡ declared_locals (view.procedure procedure.now) (body_by body) }
    requires variables_are { variables.now ≡ info_names locals.now }
    requires labels_are { labels.now ≡ texts (labels_if_any (body_by body)) }
    ensures modifies { IfOk result (λ r. named_modifies (declarations_of declared.now) (view.procedure procedure.now) ≡ Some r.modifies.items) }
    ensures specs { IfOk result (λ r. named_specifications (declarations_of declared.now) (view.procedure procedure.now) (view.procedure procedure.now).specs ≡ Some (map typed.specification r.specs.items)) }
    ensures body { IfOk result (λ r. resolved.named_body (declarations_of declared.now) (view.procedure procedure.now) (body_by body.entry) ≡ Some (option_map (λ b. typed.statements b.items) r.body.stmts)) }
    ensures hidden { IfOk result (λ r. r.body.hidden ≡ hidden_count (declarations_of declared.now) (view.procedure procedure.now) (body_by body.entry)) }
    ensures fault { IfErr result (λ f. IsProcedureFault (declarations_of declared.now) (view.procedure procedure.now) f) }
{
    let modifies = modifies(alloc, declared, &procedure.specs)?;
    let specs = specifications_inside(alloc, declared, procedure, variables, locals)?;
    let body = body_inside(alloc, declared, variables, labels, locals, body)?;
    Ok(Parts {
        modifies,
        specs,
        body,
    })
}

/// A procedure of these parts; the hidden locals come last.
fn joined(
    alloc: Global,
    procedure: &Proc,
    parts: Parts,
    mut locals: Vec<VarInfo>,
) -> Result<TProc, TypeFault>
    ensures ok { IfOk result (λ t. typed.procedure t ≡ record {
      name = (view.procedure procedure.now).name.text;
      params = length (view.procedure procedure.now).params;
      results = length (view.procedure procedure.now).results;
      locals = locals.items ++ hidden_locals 1 parts.body.hidden;
      modifies = parts.modifies.items;
      specs = map typed.specification parts.specs.items;
      body = option_map (λ b. typed.statements b.items) parts.body.stmts;
    }) }
    ensures fault { IfErr result IsMemoryFault }
{
    add_hidden(alloc, &mut locals, parts.body.hidden)?;
    let params = number_of(procedure.params.len())?;
    let results = number_of(procedure.results.len())?;
    Ok(TProc {
        name: procedure.name.text.copy()?,
        params,
        results,
        locals,
        modifies: parts.modifies,
        specs: parts.specs,
        body: parts.body.stmts,
    })
}

/// A procedure with its names replaced, and with the body that it has: its own, or that of its implementation.
pub(crate) fn procedure<'a>(
    alloc: Global,
    declared: &Declared<'a, '_>,
    procedure: &'a Proc,
    body: Option<&'a Body>,
) -> Result<TProc, TypeFault>
    requires procs_are { procedures_by declared.now.procs.now ≡ procedures_of (map view.declaration declared.now.decls.now) }
    requires body_is { option_map (λ b. view.body b.now) body ≡ body_of (map view.declaration declared.now.decls.now) (view.procedure procedure.now) }
    ensures ok { IfOk result (λ t. named_procedure (map view.declaration declared.now.decls.now) (view.procedure procedure.entry.now) ≡ Some (typed.procedure t)) }
    ensures sets { IfOk result (λ _. has_sets (view.procedure procedure.entry.now) (body_of (map view.declaration declared.now.decls.now) (view.procedure procedure.entry.now)) ≡ true) }
    ensures fault { IfErr result (λ f. IsProcedureRefused (map view.declaration declared.now.decls.now) (view.procedure procedure.entry.now) f) }
{
    let variables = numbered_variables(alloc, procedure, body)?;
    let labels = numbered_labels(alloc, body)?;
    let locals = locals(alloc, procedure, body)?;
    let parts = make_parts(
        alloc, declared, procedure, body, &variables, &labels, &locals,
    )?;
    joined(alloc, procedure, parts, locals)
}
