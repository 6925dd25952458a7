//! The implementations of procedures, and the bodies that procedures have.

ghost use Rattle.std.specs.Prelude.{◌≡◌, true, OnOk, IfErr, option_and_then};
ghost use Rattle.std.specs.List.{list_all};
ghost use Rattle.std.specs.Option.{option_map, option_or};
ghost use Rattle.boogie_tree.specs.View as view;
ghost use Rattle.typed_tree.specs.Typing as typing;
ghost use Rattle.typed_tree.specs.TypingRules.Rules.{meets};
ghost use Rattle.boogie_types.specs.Ties.DeclarationFaults.{IsImplementationBroken, AreImplementationsBroken};
ghost use Rattle.boogie_types.specs.Ties.Referred.{procedures_by};
ghost use Rattle.boogie_types.specs.Resolved as resolved;
ghost use Rattle.boogie_types.specs.Resolved.{implements};
ghost use Rattle.boogie_types.specs.Sorted.{first_named};

use crate::listed::Listed;
use boogie_tree::{Body, Proc, Ty, Vary};
use typed_tree::TypeFault;

fn same_type(this: Ty, other: Ty) -> bool
    ensures { result ≡ typing.same_type this other }
{
    match (this, other) {
        (Ty::Int, Ty::Int) | (Ty::Bool, Ty::Bool) => true,
        (Ty::Int, Ty::Bool) | (Ty::Bool, Ty::Int) => false,
    }
}

/// Whether two variables have one name and one type.
fn same_variable(this: &Vary, other: &Vary) -> bool
    ensures { result ≡ resolved.same_variable this.now other.now }
{
    this.name.text.bytes() == other.name.text.bytes() && same_type(this.ty, other.ty)
}

/// Whether two lists have the same variables, in order.
fn same_variables(these: &[Vary], others: &[Vary]) -> bool
    ensures { result ≡ resolved.same_variables these.now others.now }
{
    for (number, this) in these.iter().enumerate() {
        let Some(other) = others.get(number) else {
            return false;
        };
        if !same_variable(this, other) {
            return false;
        }
    }
    these.len() == others.len()
}

/// Whether an implementation has the parameters and results of the procedure.
fn repeats(implementation: &Proc, procedure: &Proc) -> bool
    ensures { result ≡ resolved.repeats (view.procedure implementation.now) (view.procedure procedure.now) }
{
    same_variables(&implementation.params, &procedure.params)
        && same_variables(&implementation.results, &procedure.results)
}

/// Checks that an implementation is that of a procedure without a body of its own.
fn check(procs: &Listed<'_>, implementation: &Proc) -> Result<(), TypeFault>
    ensures ok { OnOk result (meets (implements (view.procedure implementation.now)) (first_named implementation.now.name.text (procedures_by procs.now.procs.items)) ≡ true) }
    ensures fault { IfErr result (λ f. IsImplementationBroken (procedures_by procs.now.procs.items) (view.procedure implementation.now) f) }
{
    let name = &implementation.name;
    let Some(procedure) = procs.first_named(name.text.bytes()) else {
        return Err(TypeFault::Unknown(name.span));
    };
    if procedure.body.is_some() {
        return Err(TypeFault::Twice(name.span));
    }
    if repeats(implementation, procedure) {
        Ok(())
    } else {
        Err(TypeFault::Mismatch(name.span))
    }
}

/// Checks that each implementation is that of a procedure without a body of its own.
pub(crate) fn check_all(procs: &Listed<'_>, implementations: &[&Proc]) -> Result<(), TypeFault>
    ensures ok { OnOk result (list_all (λ i. meets (implements i) (first_named i.name.text (procedures_by procs.now.procs.items))) (procedures_by implementations.now) ≡ true) }
    ensures fault { IfErr result (λ f. AreImplementationsBroken (procedures_by procs.now.procs.items) (procedures_by implementations.now) f) }
{
    for implementation in implementations {
        check(procs, implementation)?;
    }
    Ok(())
}

/// The body that a procedure has: its own, or else that of its implementation.
pub(crate) fn body_of<'a>(implementations: &Listed<'a>, procedure: &'a Proc) -> Option<&'a Body>
    ensures { option_map (λ b. view.body b.now) result ≡ option_or (view.procedure procedure.entry.now).body (option_and_then (λ i. i.body) (first_named procedure.entry.now.name.text (procedures_by implementations.now.procs.items))) }
{
    match &procedure.body {
        Some(own) => Some(own),
        None => {
            let implementation = implementations.first_named(procedure.name.text.bytes())?;
            implementation.body.as_ref()
        }
    }
}
