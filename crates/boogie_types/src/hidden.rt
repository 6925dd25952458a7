//! Hidden locals.

ghost use Rattle.std.specs.Prelude.{◌≡◌, ◌<◌, ◌++◌, [], ◌∷◌, codes, OnOk, IfOk};
ghost use Rattle.boogie_types.specs.Sorted.{decimal_of, hidden_locals};

use boogie_tree::{Text, Ty, VarInfo};
use std::alloc::{AllocError, Global};

/// The name of the hidden local with that number.
fn hidden_name(alloc: Global, number: u64) -> Result<Text, AllocError>
    requires { 0 < number }
    ensures { IfOk result (λ t. t ≡ codes "h:" ++ decimal_of number) }
{
    let name = format!(in alloc; "h:{number}")?;
    Ok(Text::new(name.into_bytes()))
}

/// The hidden local with that number.
fn hidden_local(alloc: Global, number: u64) -> Result<VarInfo, AllocError>
    requires { 0 < number }
    ensures { IfOk result (λ v. hidden_locals number 1 ≡ v ∷ []) }
{
    Ok(VarInfo {
        name: hidden_name(alloc, number)?,
        ty: Ty::Bool,
        constant: false,
    })
}

/// Puts as many hidden locals behind the others, numbered from 1 on.
#[tactic(auto, using(crate::proofs::HiddenLaws::hidden_turn, crate::proofs::HiddenLaws::hidden_end))]
pub(crate) fn add_hidden(
    alloc: Global,
    locals: &mut Vec<VarInfo>,
    count: u32,
) -> Result<(), AllocError>
    ensures { OnOk result (locals.new.items ≡ locals.old.items ++ hidden_locals 1 count) }
{
    for before in 0..count {
        let local = hidden_local(alloc, u64::from(before) + 1)?;
        locals.push(local)?;
    }
    Ok(())
}
