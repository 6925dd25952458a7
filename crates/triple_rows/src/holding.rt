//! Where predicates hold.

ghost use Rattle.std.specs.Prelude.{◌≡◌, ◌↔◌, ◌<◌, ◌≤◌, IsTrue, IfOk, OnOk, OnErr, length, take};
ghost use Rattle.std.specs.List.{AllByRecursion};
ghost use Rattle.lin_rows.specs.Points.{point_of};
ghost use Rattle.triple_rows.specs.Predicates.{FormulaHolds, AllHold, SomeHolds, IsOver, bundled, formulas, first_formula, formula_of};
ghost use Rattle.triple_rows.specs.Reading.{AreComplete, IsRest, FormulaFits, FormulasFit};

use crate::predicates::{Pred, PredNode};
use lin_rows::{Past, RowFault, holds};

/// Whether the predicate holds at the point that gives the column c the value at its place c. All atoms are evaluated;
/// `Past` comes exactly where a product or a running sum of one does not fit. It takes no memory.
pub fn pred_holds(pred: &Pred, values: &[i128]) -> Result<bool, RowFault>
    requires { IsOver (length values.now) (formula_of pred.now) }
    ensures value { IfOk result (λ yes. IsTrue yes ↔ FormulaHolds (point_of values.now) (formula_of pred.now)) }
    ensures fits { OnOk result (FormulaFits (point_of values.now) (formula_of pred.now)) }
    ensures past { OnErr result (FormulaFits (point_of values.now) (formula_of pred.now) → ⊥) }
    ensures memory { result ≡ Err RowFault.Memory → ⊥ }
{
    match tree_holds(pred.nodes(), values) {
        Ok((yes, _)) => Ok(yes),
        Err(Past) => Err(RowFault::Past),
    }
}

/// Whether the tree in front holds, and the nodes behind it.
#[cycle(trees)]
fn tree_holds<'a>(nodes: &'a [PredNode], values: &[i128]) -> Result<(bool, &'a [PredNode]), Past>
    requires some { 0 < length (formulas nodes.now) }
    requires complete { AreComplete nodes.now }
    requires over { AllByRecursion (IsOver (length values.now)) (formulas nodes.now) }
    ensures value { IfOk result (λ r. IsTrue r.0 ↔ FormulaHolds (point_of values.now) (formula_of nodes.now)) }
    ensures rest { IfOk result (λ r. IsRest 1 nodes.now r.1.now) }
    ensures fits { OnOk result (FormulaFits (point_of values.now) (formula_of nodes.now)) }
    ensures past { OnErr result (FormulaFits (point_of values.now) (formula_of nodes.now) → ⊥) }
{
    let Some((first, rest)) = nodes.split_first() else {
        unreachable!()
    };
    match first {
        PredNode::Truth(value) => Ok((*value, rest)),
        PredNode::Atom(row) => Ok((holds(row, values)?, rest)),
        PredNode::And(parts) => {
            let held = parts_hold(rest, *parts, values)?;
            Ok((held.all, held.rest))
        }
        PredNode::Or(parts) => {
            let held = parts_hold(rest, *parts, values)?;
            Ok((held.one, held.rest))
        }
    }
}

/// Of some parts of a node whether all hold and whether one does, and the nodes behind them.
#[derive(Drop)]
struct Held<'a> {
    all: bool,
    one: bool,
    rest: &'a [PredNode],
}

/// Whether all of so many trees in front hold and whether one does, and the nodes behind them.
#[cycle(trees)]
fn parts_hold<'a>(nodes: &'a [PredNode], count: u32, values: &[i128]) -> Result<Held<'a>, Past>
    requires enough { count ≤ length (formulas nodes.now) }
    requires complete { AreComplete nodes.now }
    requires over { AllByRecursion (IsOver (length values.now)) (formulas nodes.now) }
    ensures all { IfOk result (λ r. IsTrue r.all ↔ AllHold (point_of values.now) (bundled (take count (formulas nodes.now)))) }
    ensures one { IfOk result (λ r. IsTrue r.one ↔ SomeHolds (point_of values.now) (bundled (take count (formulas nodes.now)))) }
    ensures rest { IfOk result (λ r. IsRest count nodes.now r.rest.now) }
    ensures fits { OnOk result (FormulasFit (point_of values.now) (bundled (take count (formulas nodes.now)))) }
    ensures past { OnErr result (FormulasFit (point_of values.now) (bundled (take count (formulas nodes.now))) → ⊥) }
{
    let mut all = true;
    let mut one = false;
    let mut rest = nodes;
    for _i in 0..count {
        let (yes, behind) = tree_holds(rest, values)?;
        all = all && yes;
        one = one || yes;
        rest = behind;
    }
    Ok(Held { all, one, rest })
}
