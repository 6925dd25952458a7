//! Programs with their names resolved, for which the typing rules hold.

ghost use Rattle.std.specs.Prelude.{◌≡◌, ◌⊎◌, true, Some, None, Err, map, IfOk, IfErr, IsErr};
ghost use Rattle.std.specs.List.{list_all, position_from};
ghost use Rattle.std.specs.Str.{bytes_eq};
ghost use Rattle.boogie_tree.specs.Names.{is_name};
ghost use Rattle.boogie_tree.specs.View as view;
ghost use Rattle.typed_tree.specs.declared.fault.TypeFault.TheVariants as faults;
ghost use Rattle.typed_tree.specs.TypingRules.Rules.{keeps_typing};
ghost use Rattle.typed_tree.specs.TypingRules.TypedParts.{typed_program};
ghost use Rattle.typed_tree.specs.TypingRules.ValidProgram.{is_typed};
ghost use Rattle.boogie_types.specs.BrokenNames.{IsTypeFault};
ghost use Rattle.boogie_types.specs.Ties.DeclarationFaults.{IsRefused};
ghost use Rattle.boogie_types.specs.Ties.Numbers.{IsMemoryFault};
ghost use Rattle.boogie_types.specs.Ties.Referred.{procedures_by};
ghost use Rattle.boogie_types.specs.Ties.Replaced.{program_by, IsReplaced, from_entry, if_entry};
ghost use Rattle.boogie_types.specs.Resolved.{is_set, are_named, resolved_program};
ghost use Rattle.boogie_types.specs.Sorted.{procedures_of};

use crate::declarations::{Replaced, procedures, replace_names};
use crate::listed::Listed;
use boogie_tree::{Decl, Program};
use std::alloc::Global;
use typed_tree::TypeFault;
use typed_tree::typing_rules::{Typed, check_typing, numbers_fit};

/// The declarations with their names replaced, where they keep the typing rules.
fn checked<'a>(alloc: Global, decls: &'a [Decl], procs: &Listed<'a>) -> Result<Replaced, TypeFault>
    requires procs_are { procedures_by procs.now.procs.items ≡ procedures_of (map view.declaration decls.now) }
    requires procs_differ { is_set (map (λ p. p.name) (procedures_of (map view.declaration decls.now))) ≡ true }
    ensures ok { IfOk result (λ r. IsReplaced (map view.declaration decls.entry.now) (program_by r)) }
    ensures kept { IfOk result (λ r. keeps_typing (program_by r) ≡ true) }
    ensures fault { IfErr result (λ f. IsRefused (map view.declaration decls.entry.now) f) }
{
    let replaced = replace_names(alloc, decls, procs)?;
    check_typing(alloc, &replaced.globals, &replaced.axioms, &replaced.procs)?;
    Ok(replaced)
}

/// The number of the entry, where it is a procedure with a body.
fn entry_number(replaced: &Replaced, procs: &Listed<'_>, entry: &[u8]) -> Option<u32>
    ensures { result ≡ if_entry (program_by replaced.now) (position_from (λ p. bytes_eq entry.now p.name.text) 0 (procedures_by procs.now.procs.items)) }
{
    let number = procs.number(entry)?;
    match replaced.procs.get(number as usize) {
        Some(procedure) if procedure.body.is_some() => Some(number),
        Some(_) | None => None,
    }
}

/// The typed program with that entry, where its numbers fit.
fn with_entry(alloc: Global, replaced: Replaced, entry: u32) -> Result<Typed, TypeFault>
    requires typed { is_typed (from_entry (program_by replaced) entry) ≡ true }
    ensures ok { IfOk result (λ t. typed_program t ≡ from_entry (program_by replaced) entry) }
    ensures fault { IfErr result (λ f. IsMemoryFault f) }
{
    let Replaced {
        globals,
        axioms,
        procs,
    } = replaced;
    if numbers_fit(alloc, &globals, &axioms, &procs, entry)? {
        Ok(Typed::new(globals, axioms, procs, entry))
    } else {
        Err(TypeFault::Memory)
    }
}

/// The typed program that these declarations are.
fn resolved(alloc: Global, decls: &[Decl], entry: &[u8]) -> Result<Typed, TypeFault>
    requires named { are_named (map view.declaration decls.now) ≡ true }
    ensures ok { IfOk result (λ t. resolved_program (map view.declaration decls.now) entry.now ≡ Some (typed_program t)) }
    ensures names { IfOk result (λ t. list_all (λ p. is_name p.name) (typed_program t).procs ≡ true) }
    ensures fault { IfErr result (λ f. IsTypeFault (map view.declaration decls.now) entry.now f) }
{
    let procs = procedures(alloc, decls)?;
    let replaced = checked(alloc, decls, &procs)?;
    match entry_number(&replaced, &procs, entry) {
        Some(number) => with_entry(alloc, replaced, number),
        None => Err(TypeFault::NoEntry),
    }
}

/// The typed program that a program is, begun at the procedure of that name, or a rule that is broken and where.
///
/// The rule on the entry is the last: `NoEntry` comes only where no other rule is broken. A program with a number that does not
/// have 32 bits is refused as one that memory does not hold.
pub fn resolve(alloc: Global, program: Program, entry: &str) -> Result<Typed, TypeFault>
    requires named { are_named (view.program program) ≡ true }
    ensures ok { IfOk result (λ t. resolved_program (view.program program) entry.now ≡ Some (typed_program t)) }
    ensures names { IfOk result (λ t. list_all (λ p. is_name p.name) (typed_program t).procs ≡ true) }
    ensures fault { IfErr result (λ f. IsTypeFault (view.program program) entry.now f) }
    ensures only { IsErr result → (result ≡ Err faults.Memory) ⊎ (resolved_program (view.program program) entry.now ≡ None) }
{
    resolved(alloc, &program.decls, entry.as_bytes())
}
