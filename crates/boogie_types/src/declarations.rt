//! The declarations of a program with their names replaced.

ghost use Rattle.std.specs.Prelude.{◌≡◌, true, Some, [], map, IfOk, OnOk, IfErr};
ghost use Rattle.std.specs.List.{list_all};
ghost use Rattle.boogie_tree.specs.View as view;
ghost use Rattle.typed_tree.specs.Scope.{seen};
ghost use Rattle.typed_tree.specs.Scope as scopes;
ghost use Rattle.typed_tree.specs.TypedView as typed;
ghost use Rattle.boogie_types.specs.Ties.DeclarationFaults.{AreProceduresRefused, IsRefused};
ghost use Rattle.boogie_types.specs.Naming as naming;
ghost use Rattle.boogie_types.specs.Naming.{each};
ghost use Rattle.boogie_types.specs.Ties.NamingFaults.{AreExpressionsFault};
ghost use Rattle.boogie_types.specs.Ties.Numbers.{info_names, IsMemoryFault};
ghost use Rattle.boogie_types.specs.Ties.ProcedureFaults.{IsProcedureRefused};
ghost use Rattle.boogie_types.specs.Ties.Referred.{expressions_by, procedures_by};
ghost use Rattle.boogie_types.specs.Ties.Replaced.{IsReplaced, program_by};
ghost use Rattle.boogie_types.specs.Resolved.{is_set, has_sets, are_implementations, named_procedure};
ghost use Rattle.boogie_types.specs.Sorted.{declared_globals, global_names, axioms_of, procedures_of, implementations_of};
ghost use Rattle.boogie_types.specs.Sorted as sorted;

use crate::declared::Declared;
use crate::expressions::named;
use crate::implementations::{body_of, check_all};
use crate::listed::Listed;
use crate::names::Names;
use crate::numbered::Numbered;
use crate::procedures::procedure;
use crate::sorted;
use boogie_tree::{Decl, Expr, Proc};
use std::alloc::Global;
use typed_tree::{Scope, TExpr, TProc, TypeFault, VarInfo};

/// The numbers of the constants and globals.
fn global_numbers<'a>(alloc: Global, decls: &'a [Decl]) -> Result<Numbered<'a>, TypeFault>
    ensures ok { IfOk result (λ l. l ≡ info_names (declared_globals (map view.declaration decls.entry.now))) }
    ensures set { IfOk result (λ _. is_set (global_names (map view.declaration decls.entry.now)) ≡ true) }
    ensures fault { IfErr result (λ f. IsRefused (map view.declaration decls.entry.now) f) }
{
    let names = sorted::names_of_globals(alloc, decls)?;
    Numbered::new(alloc, names)
}

/// The procedures with their numbers.
pub(crate) fn procedures<'a>(alloc: Global, decls: &'a [Decl]) -> Result<Listed<'a>, TypeFault>
    ensures listed { IfOk result (λ l. procedures_by l.procs.items ≡ procedures_of (map view.declaration decls.entry.now)) }
    ensures set { IfOk result (λ _. is_set (map (λ p. p.name) (procedures_of (map view.declaration decls.entry.now))) ≡ true) }
    ensures fault { IfErr result (λ f. IsRefused (map view.declaration decls.entry.now) f) }
{
    let procs = sorted::procedures(alloc, decls)?;
    Listed::new(alloc, procs)
}

/// The implementations, each that of another procedure, which has no body of its own.
fn implementations<'a>(
    alloc: Global,
    decls: &'a [Decl],
    procs: &Listed<'a>,
) -> Result<Listed<'a>, TypeFault>
    requires procs_are { procedures_by procs.now.procs.items ≡ procedures_of (map view.declaration decls.now) }
    ensures listed { IfOk result (λ l. procedures_by l.procs.items ≡ implementations_of (map view.declaration decls.entry.now)) }
    ensures ok { IfOk result (λ _. are_implementations (map view.declaration decls.entry.now) ≡ true) }
    ensures fault { IfErr result (λ f. IsRefused (map view.declaration decls.entry.now) f) }
{
    let listed = sorted::implementations(alloc, decls)?;
    let implementations = Listed::new(alloc, listed)?;
    check_all(procs, &implementations.procs)?;
    Ok(implementations)
}

/// No names.
fn no_names<'a>(alloc: Global) -> Result<Numbered<'a>, TypeFault>
    ensures ok { IfOk result (λ l. l ≡ []) }
    ensures fault { IfErr result (λ f. IsMemoryFault f) }
{
    Numbered::new(alloc, Vec::new(alloc))
}

/// Axioms with their names replaced.
fn all_named(
    alloc: Global,
    names: &Names<'_, '_>,
    axioms: &[&Expr],
) -> Result<Vec<TExpr>, TypeFault>
    ensures ok { IfOk result (λ v. each (naming.named (seen names.now.scope)) (expressions_by axioms.now) ≡ Some (map typed.expression v.items)) }
    ensures fault { IfErr result (λ f. AreExpressionsFault (seen names.now.scope) (expressions_by axioms.now) f) }
{
    let mut values = Vec::new(alloc);
    for axiom in axioms {
        let value = named(alloc, names, axiom)?;
        values.push(value)?;
    }
    Ok(values)
}

/// The axioms with their names replaced. They see the constants alone.
fn axioms(
    alloc: Global,
    globals: &[VarInfo],
    numbers: &Numbered<'_>,
    axioms: &[&Expr],
) -> Result<Vec<TExpr>, TypeFault>
    requires numbers_are { numbers.now ≡ info_names globals.now }
    ensures ok { IfOk result (λ v. each (naming.named (scopes.axiom_scope globals.now)) (expressions_by axioms.now) ≡ Some (map typed.expression v.items)) }
    ensures fault { IfErr result (λ f. AreExpressionsFault (scopes.axiom_scope globals.now) (expressions_by axioms.now) f) }
{
    let locals = no_names(alloc)?;
    let scope = Scope {
        globals,
        variables: false,
        locals: &[],
        old: false,
    };
    let names = Names {
        globals: numbers,
        locals: &locals,
        scope,
    };
    all_named(alloc, &names, axioms)
}

/// A procedure with its names replaced, and with the body that it has.
fn with_body<'a>(
    alloc: Global,
    declared: &Declared<'a, '_>,
    implementations: &Listed<'a>,
    listed: &'a Proc,
) -> Result<TProc, TypeFault>
    requires procs_are { procedures_by declared.now.procs.now ≡ procedures_of (map view.declaration declared.now.decls.now) }
    requires implementations_are { procedures_by implementations.now.procs.items ≡ implementations_of (map view.declaration declared.now.decls.now) }
    ensures ok { IfOk result (λ t. named_procedure (map view.declaration declared.now.decls.now) (view.procedure listed.entry.now) ≡ Some (typed.procedure t)) }
    ensures sets { IfOk result (λ _. has_sets (view.procedure listed.entry.now) (sorted.body_of (map view.declaration declared.now.decls.now) (view.procedure listed.entry.now)) ≡ true) }
    ensures fault { IfErr result (λ f. IsProcedureRefused (map view.declaration declared.now.decls.now) (view.procedure listed.entry.now) f) }
{
    let body = body_of(implementations, listed);
    procedure(alloc, declared, listed, body)
}

/// The procedures with their names replaced.
fn procedures_named<'a>(
    alloc: Global,
    declared: &Declared<'a, '_>,
    implementations: &Listed<'a>,
    procs: &[&'a Proc],
) -> Result<Vec<TProc>, TypeFault>
    requires procs_are { procedures_by declared.now.procs.now ≡ procedures_of (map view.declaration declared.now.decls.now) }
    requires implementations_are { procedures_by implementations.now.procs.items ≡ implementations_of (map view.declaration declared.now.decls.now) }
    ensures ok { IfOk result (λ v. each (named_procedure (map view.declaration declared.now.decls.now)) (procedures_by procs.now) ≡ Some (map typed.procedure v.items)) }
    ensures sets { IfOk result (λ _. list_all (λ p. has_sets p (sorted.body_of (map view.declaration declared.now.decls.now) p)) (procedures_by procs.now) ≡ true) }
    ensures fault { IfErr result (λ f. AreProceduresRefused (map view.declaration declared.now.decls.now) (procedures_by procs.now) f) }
{
    let mut made = Vec::new(alloc);
    for listed in procs {
        let procedure = with_body(alloc, declared, implementations, listed)?;
        made.push(procedure)?;
    }
    Ok(made)
}

/// A program with its names replaced, its entry left out.
#[derive(Drop)]
pub(crate) struct Replaced {
    pub(crate) globals: Vec<VarInfo>,
    pub(crate) axioms: Vec<TExpr>,
    pub(crate) procs: Vec<TProc>,
}

/// The declarations with their names replaced.
pub(crate) fn replace_names<'a>(
    alloc: Global,
    decls: &'a [Decl],
    procs: &Listed<'a>,
) -> Result<Replaced, TypeFault>
    requires procs_are { procedures_by procs.now.procs.items ≡ procedures_of (map view.declaration decls.now) }
    requires procs_differ { is_set (map (λ p. p.name) (procedures_of (map view.declaration decls.now))) ≡ true }
    ensures ok { IfOk result (λ r. IsReplaced (map view.declaration decls.entry.now) (program_by r)) }
    ensures fault { IfErr result (λ f. IsRefused (map view.declaration decls.entry.now) f) }
{
    let globals = sorted::globals(alloc, decls)?;
    let mut replaced = Replaced {
        globals,
        axioms: Vec::new(alloc),
        procs: Vec::new(alloc),
    };
    replace_all(alloc, decls, procs, &mut replaced)?;
    Ok(replaced)
}

/// Puts the axioms and the procedures with their names replaced behind the globals.
fn replace_all<'a>(
    alloc: Global,
    decls: &'a [Decl],
    procs: &Listed<'a>,
    replaced: &mut Replaced,
) -> Result<(), TypeFault>
    requires procs_are { procedures_by procs.now.procs.items ≡ procedures_of (map view.declaration decls.now) }
    requires procs_differ { is_set (map (λ p. p.name) (procedures_of (map view.declaration decls.now))) ≡ true }
    requires globals_are { replaced.old.globals.items ≡ declared_globals (map view.declaration decls.now) }
    ensures ok { OnOk result (IsReplaced (map view.declaration decls.entry.now) (program_by replaced.new)) }
    ensures fault { IfErr result (λ f. IsRefused (map view.declaration decls.entry.now) f) }
{
    let numbers = global_numbers(alloc, decls)?;
    replace_axioms(alloc, decls, &numbers, replaced)?;
    replace_procedures(alloc, decls, procs, &numbers, replaced)?;
    Ok(())
}

/// Puts the axioms with their names replaced in place of those that are there.
fn replace_axioms(
    alloc: Global,
    decls: &[Decl],
    numbers: &Numbered<'_>,
    replaced: &mut Replaced,
) -> Result<(), TypeFault>
    requires globals_are { replaced.old.globals.items ≡ declared_globals (map view.declaration decls.now) }
    requires numbers_are { numbers.now ≡ info_names (declared_globals (map view.declaration decls.now)) }
    ensures ok { OnOk result (each (naming.named (scopes.axiom_scope (declared_globals (map view.declaration decls.now)))) (axioms_of (map view.declaration decls.now)) ≡ Some (map typed.expression replaced.new.axioms.items)) }
    ensures globals { OnOk result (replaced.new.globals ≡ replaced.old.globals) }
    ensures fault { IfErr result (λ f. IsRefused (map view.declaration decls.now) f) }
{
    let listed = sorted::axioms(alloc, decls)?;
    let axioms = axioms(alloc, &replaced.globals, numbers, &listed)?;
    replaced.axioms = axioms;
    Ok(())
}

/// Puts the procedures with their names replaced in place of those that are there.
fn replace_procedures<'a>(
    alloc: Global,
    decls: &'a [Decl],
    procs: &Listed<'a>,
    numbers: &Numbered<'a>,
    replaced: &mut Replaced,
) -> Result<(), TypeFault>
    requires procs_are { procedures_by procs.now.procs.items ≡ procedures_of (map view.declaration decls.now) }
    requires globals_are { replaced.old.globals.items ≡ declared_globals (map view.declaration decls.now) }
    requires numbers_are { numbers.now ≡ info_names (declared_globals (map view.declaration decls.now)) }
    ensures ok { OnOk result (each (named_procedure (map view.declaration decls.entry.now)) (procedures_of (map view.declaration decls.entry.now)) ≡ Some (map typed.procedure replaced.new.procs.items)) }
    ensures sets { OnOk result (list_all (λ p. has_sets p (sorted.body_of (map view.declaration decls.entry.now) p)) (procedures_of (map view.declaration decls.entry.now)) ≡ true) }
    ensures implementations { OnOk result (are_implementations (map view.declaration decls.entry.now) ≡ true) }
    ensures globals { OnOk result (replaced.new.globals ≡ replaced.old.globals) }
    ensures axioms { OnOk result (replaced.new.axioms ≡ replaced.old.axioms) }
    ensures fault { IfErr result (λ f. IsRefused (map view.declaration decls.entry.now) f) }
{
    let implementations = implementations(alloc, decls, procs)?;
    let declared = Declared {
        decls,
        globals: &replaced.globals,
        global_numbers: numbers,
        procs: &procs.procs,
        proc_numbers: &procs.numbers,
    };
    let made = procedures_named(alloc, &declared, &implementations, &procs.procs)?;
    replaced.procs = made;
    Ok(())
}
