//! Modifies lists with their names replaced.

ghost use Rattle.std.specs.Prelude.{◌≡◌, [], ◌∷◌, Some, map, OnOk, IfOk, IfErr};
ghost use Rattle.std.specs.Option.{option_map};
ghost use Rattle.boogie_tree.specs.View as view;
ghost use Rattle.boogie_types.specs.Sorted as lists;
ghost use Rattle.boogie_types.specs.Sorted.{modified_in};
ghost use Rattle.boogie_types.specs.Resolved.{unless_constant, modified_number};
ghost use Rattle.boogie_types.specs.Ties.Modified.{modified_numbers, AreModifiedFault};
ghost use Rattle.boogie_types.specs.Ties.Making.{made};

use crate::declared::Declared;
use boogie_tree::{Name, Spec, VarInfo};
use std::alloc::{AllocError, Global};
use std::collections::BTreeSet;
use typed_tree::TypeFault;

/// The number of a global, unless it is a constant.
fn assignable(globals: &[VarInfo], number: u32) -> Option<u32>
    ensures { result ≡ unless_constant globals.now number }
{
    let global = globals.get(number as usize)?;
    if global.constant { None } else { Some(number) }
}

/// The number of the global with that name. A constant is not assignable.
fn modified(declared: &Declared<'_, '_>, name: &Name) -> Result<u32, TypeFault>
    ensures ok { IfOk result (λ n. modified_number declared.now.globals.now name.now.text ≡ Some n) }
    ensures fault { IfErr result (λ f. AreModifiedFault declared.now.globals.now (name.now ∷ []) f) }
{
    let Some(number) = declared.global_numbers.place(name.text.bytes()) else {
        return Err(TypeFault::Unknown(name.span));
    };
    match assignable(declared.globals, number) {
        Some(number) => Ok(number),
        None => Err(TypeFault::NotAssignable(name.span)),
    }
}

/// Puts the numbers of the globals with these names behind the others.
#[tactic(auto, using(crate::proofs::ModifiedLaws::numbers_turn))]
fn add_modified(
    declared: &Declared<'_, '_>,
    names: &[Name],
    numbers: &mut Vec<u32>,
) -> Result<(), TypeFault>
    ensures ok { OnOk result (made numbers.old.items (modified_numbers declared.now.globals.now names.now) ≡ Some numbers.new.items) }
    ensures fault { IfErr result (λ f. AreModifiedFault declared.now.globals.now names.now f) }
{
    for name in names {
        let number = modified(declared, name)?;
        numbers.push(number)?;
    }
    Ok(())
}

/// The numbers of the globals in the modifies lists, in order.
fn all_modified(
    alloc: Global,
    declared: &Declared<'_, '_>,
    specs: &[Spec],
) -> Result<Vec<u32>, TypeFault>
    ensures ok { IfOk result (λ v. modified_numbers declared.now.globals.now (modified_in (map view.specification specs.now)) ≡ Some v.items) }
    ensures fault { IfErr result (λ f. AreModifiedFault declared.now.globals.now (modified_in (map view.specification specs.now)) f) }
{
    let mut numbers = Vec::new(alloc);
    for spec in specs {
        if let Spec::Modifies(names) = spec {
            add_modified(declared, names, &mut numbers)?;
        }
    }
    Ok(numbers)
}

/// Each number once, where it stands first.
fn firsts(alloc: Global, numbers: &[u32]) -> Result<Vec<u32>, AllocError>
    ensures { IfOk result (λ v. v.items ≡ lists.firsts [] numbers.now) }
{
    let mut seen = BTreeSet::new(alloc);
    let mut firsts = Vec::new(alloc);
    for number in numbers {
        if seen.insert(*number)? {
            firsts.push(*number)?;
        }
    }
    Ok(firsts)
}

/// The numbers of the globals in the modifies lists, each once, in order of first mention.
pub(crate) fn modifies(
    alloc: Global,
    declared: &Declared<'_, '_>,
    specs: &[Spec],
) -> Result<Vec<u32>, TypeFault>
    ensures ok { IfOk result (λ v. option_map (lists.firsts []) (modified_numbers declared.now.globals.now (modified_in (map view.specification specs.now))) ≡ Some v.items) }
    ensures fault { IfErr result (λ f. AreModifiedFault declared.now.globals.now (modified_in (map view.specification specs.now)) f) }
{
    let numbers = all_modified(alloc, declared, specs)?;
    let firsts = firsts(alloc, &numbers)?;
    Ok(firsts)
}
