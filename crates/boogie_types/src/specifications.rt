//! Specifications with their names replaced.

ghost use Rattle.std.specs.Prelude.{◌≡◌, Some, [], ◌∷◌, map, OnOk, IfOk, IfErr};
ghost use Rattle.boogie_tree.specs.View as view;
ghost use Rattle.typed_tree.specs.TypedView as typed;
ghost use Rattle.typed_tree.specs.Scope.{seen};
ghost use Rattle.boogie_types.specs.Ties.Making.{made};
ghost use Rattle.boogie_types.specs.Ties.Specifications.{specifications_in, AreSpecificationsFault};

use crate::lists::invariant;
use crate::names::Names;
use boogie_tree::Spec;
use std::alloc::Global;
use typed_tree::{TSpec, TypeFault};

/// Puts a specification with its names replaced behind the others, unless it is a modifies list.
fn add_specification(
    alloc: Global,
    before: &Names<'_, '_>,
    after: &Names<'_, '_>,
    spec: &Spec,
    specs: &mut Vec<TSpec>,
) -> Result<(), TypeFault>
    ensures ok { OnOk result (made (map typed.specification specs.old.items) (specifications_in (seen before.now.scope) (seen after.now.scope) (view.specification spec.now ∷ [])) ≡ Some (map typed.specification specs.new.items)) }
    ensures fault { IfErr result (λ f. AreSpecificationsFault (seen before.now.scope) (seen after.now.scope) (view.specification spec.now ∷ []) f) }
{
    match spec {
        Spec::Requires(condition) => {
            let condition = invariant(alloc, before, condition)?;
            specs.push(TSpec::Requires(condition))?;
        }
        Spec::Ensures(condition) => {
            let condition = invariant(alloc, after, condition)?;
            specs.push(TSpec::Ensures(condition))?;
        }
        Spec::Modifies(_) => {}
    }
    Ok(())
}

/// The specifications that are no modifies lists, by what requires and what ensures see.
#[tactic(auto, using(crate::proofs::SpecificationLaws::spec_turn))]
pub(crate) fn specifications(
    alloc: Global,
    before: &Names<'_, '_>,
    after: &Names<'_, '_>,
    specs: &[Spec],
) -> Result<Vec<TSpec>, TypeFault>
    ensures ok { IfOk result (λ v. specifications_in (seen before.now.scope) (seen after.now.scope) (map view.specification specs.now) ≡ Some (map typed.specification v.items)) }
    ensures fault { IfErr result (λ f. AreSpecificationsFault (seen before.now.scope) (seen after.now.scope) (map view.specification specs.now) f) }
{
    let mut named = Vec::new(alloc);
    for spec in specs {
        add_specification(alloc, before, after, spec, &mut named)?;
    }
    Ok(named)
}
