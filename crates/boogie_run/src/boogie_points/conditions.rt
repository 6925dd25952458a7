//! The conditions of procedures, by their numbers.

ghost use Rattle.std.specs.Prelude.{◌≡◌, ◌∷◌, ◌++◌, ◌+◌, ◌<◌, ◌^◌, [], map, slice_get};
ghost use Rattle.std.specs.Option.{option_map, option_to_list};
ghost use Rattle.typed_tree.specs.TypedView as view;
ghost use Rattle.boogie_run.specs.BoogiePoints.Actions as spec;

use boogie_tree::Column;
use typed_tree::typing_rules::Typed;
use typed_tree::{TExpr, TInv, TProc, TSpec};

/// The procedure of that number.
pub fn procedure_at(procs: &[TProc], number: u32) -> Option<&TProc>
    ensures { option_map (λ q. view.procedure q.now) result ≡ slice_get (map view.procedure procs.now) number }
{
    procs.get(number as usize)
}

/// The condition of that number.
pub(crate) fn condition_at(conditions: &[TInv], number: usize) -> Option<&TInv>
    ensures { option_map (λ i. view.invariant i.now) result ≡ slice_get (map view.invariant conditions.now) number }
{
    conditions.get(number)
}

/// The plain requires of that number.
#[tactic(auto, using(crate::proofs::BoogiePoints::ConditionLaws::plain_step))]
pub(crate) fn plain_condition(specs: &[TSpec], number: usize) -> Option<&TInv>
    ensures { option_map (λ i. view.invariant i.now) result ≡ slice_get (spec.plain_conditions (map view.specification specs.now)) number }
{
    let mut left = number;
    for said in specs {
        if let Some(condition) = plain_requires(said) {
            if left == 0 {
                return Some(condition);
            }
            left -= 1;
        }
    }
    None
}

/// A requires that is not free.
pub(crate) fn plain_requires(said: &TSpec) -> Option<&TInv>
    ensures { spec.plain_conditions (view.specification said.now ∷ []) ≡ option_to_list (option_map (λ i. view.invariant i.now) result) }
{
    match said {
        TSpec::Requires(condition) => {
            if condition.free {
                None
            } else {
                Some(condition)
            }
        }
        TSpec::Ensures(_) => None,
    }
}

/// The free requires of that number.
#[tactic(auto, using(crate::proofs::BoogiePoints::ConditionLaws::free_step))]
pub(crate) fn free_condition(specs: &[TSpec], number: usize) -> Option<&TInv>
    ensures { option_map (λ i. view.invariant i.now) result ≡ slice_get (spec.free_conditions (map view.specification specs.now)) number }
{
    let mut left = number;
    for said in specs {
        if let Some(condition) = free_requires(said) {
            if left == 0 {
                return Some(condition);
            }
            left -= 1;
        }
    }
    None
}

/// A requires that is free.
pub(crate) fn free_requires(said: &TSpec) -> Option<&TInv>
    ensures { spec.free_conditions (view.specification said.now ∷ []) ≡ option_to_list (option_map (λ i. view.invariant i.now) result) }
{
    match said {
        TSpec::Requires(condition) => {
            if condition.free {
                Some(condition)
            } else {
                None
            }
        }
        TSpec::Ensures(_) => None,
    }
}

/// The ensures of that number.
#[tactic(auto, using(crate::proofs::BoogiePoints::ConditionLaws::ensured_step))]
pub(crate) fn ensured_condition(specs: &[TSpec], number: usize) -> Option<&TInv>
    ensures { option_map (λ i. view.invariant i.now) result ≡ slice_get (spec.ensured_conditions (map view.specification specs.now)) number }
{
    let mut left = number;
    for said in specs {
        if let TSpec::Ensures(condition) = said {
            if left == 0 {
                return Some(condition);
            }
            left -= 1;
        }
    }
    None
}

/// The column of that number that a call of a procedure without body chooses: the modified globals, and then the results.
pub(crate) fn chosen_column(callee: &TProc, number: usize) -> Option<Column>
    requires { (view.procedure callee.now).params + (view.procedure callee.now).results < 2 ^ 32 }
    ensures { result ≡ slice_get (spec.chosen_columns (view.procedure callee.now)) number }
{
    let globals = callee.modifies.len();
    if number < globals {
        return Some(Column::Global(callee.modifies[number]));
    }
    let done = number - globals;
    if done < callee.results as usize {
        Some(Column::Local(callee.params + done as u32))
    } else {
        None
    }
}

/// The condition of that number that is assumed at the start of a run: the axioms, and then the plain requires of the entry.
#[tactic(auto, using(crate::proofs::BoogiePoints::ChoiceLaws::get_right))]
pub(crate) fn start_condition<'a>(
    program: &'a Typed,
    specs: &'a [TSpec],
    number: usize,
) -> Option<&'a TExpr>
    ensures { option_map (λ e. view.expression e.now) result ≡ slice_get (map view.expression program.now.axioms ++ map (λ i. i.cond) (spec.plain_conditions (map view.specification specs.now))) number }
{
    let axioms = program.axioms();
    if let Some(axiom) = axioms.get(number) {
        return Some(axiom);
    }
    match plain_condition(specs, number - axioms.len()) {
        Some(condition) => Some(&condition.cond),
        None => None,
    }
}
