//! What a step does in the frame that runs.

ghost use Rattle.std.specs.Prelude.{◌≡◌, pos, true, map};
ghost use Rattle.typed_tree.specs.TypedView as view;
ghost use Rattle.boogie_run.specs.BoogiePoints.Told.{Check, Suppose, Demand, Write, Guess, Test, Pick, Jump, told};
ghost use Rattle.boogie_run.specs.RunView.{FitsProgram};
ghost use Rattle.boogie_run.specs.StepView.{happening, Performs, is_below};

use crate::configurations::Config;
use crate::evaluation::{all_values, passed_value, value};
use crate::frames::{env, go};
use crate::types::{AssertId, Moved, RunFault};
use crate::writing::{write, write_all};
use boogie_tree::{Column, Span};
use typed_tree::TExpr;

/// An assertion under this number, at this place of the text.
pub(crate) fn check(
    config: &mut Config<'_>,
    number: u32,
    span: Span,
    cond: &TExpr,
) -> Result<Moved, RunFault>
    requires fits { FitsProgram config.old.program.now config.old }
    requires here { told (happening config.old) ≡ Check number span (view.expression cond.now) }
    ensures answer { Performs config.old (pos 0) (Check number span (view.expression cond.now)) result config.new }
    ensures fits { FitsProgram config.old.program.now config.new }
{
    if value(env(config), cond)? == 0 {
        return Ok(Moved::Failed(AssertId {
            number,
            line: span.line,
        }));
    }
    go(config, 0)?;
    Ok(Moved::Went)
}

/// An assumption.
pub(crate) fn suppose(config: &mut Config<'_>, cond: &TExpr) -> Result<Moved, RunFault>
    requires fits { FitsProgram config.old.program.now config.old }
    requires here { told (happening config.old) ≡ Suppose (view.expression cond.now) }
    ensures answer { Performs config.old (pos 0) (Suppose (view.expression cond.now)) result config.new }
    ensures fits { FitsProgram config.old.program.now config.new }
{
    if value(env(config), cond)? == 0 {
        return Ok(Moved::Blocked);
    }
    go(config, 0)?;
    Ok(Moved::Went)
}

/// A requires of a called procedure, over these arguments.
pub(crate) fn demand(
    config: &mut Config<'_>,
    number: u32,
    span: Span,
    cond: &TExpr,
    args: &[TExpr],
) -> Result<Moved, RunFault>
    requires fits { FitsProgram config.old.program.now config.old }
    requires here { told (happening config.old) ≡ Demand number span (view.expression cond.now) (map view.expression args.now) }
    ensures answer { Performs config.old (pos 0) (Demand number span (view.expression cond.now) (map view.expression args.now)) result config.new }
    ensures fits { FitsProgram config.old.program.now config.new }
{
    if passed_value(env(config), args, cond)? == 0 {
        return Ok(Moved::Failed(AssertId {
            number,
            line: span.line,
        }));
    }
    go(config, 0)?;
    Ok(Moved::Went)
}

/// A parallel assignment.
#[tactic(auto, using(crate::proofs::Going::all_written_after))]
pub(crate) fn assign(
    config: &mut Config<'_>,
    targets: &[Column],
    exprs: &[TExpr],
) -> Result<Moved, RunFault>
    requires fits { FitsProgram config.old.program.now config.old }
    requires here { told (happening config.old) ≡ Write targets.now (map view.expression exprs.now) }
    ensures answer { Performs config.old (pos 0) (Write targets.now (map view.expression exprs.now)) result config.new }
    ensures fits { FitsProgram config.old.program.now config.new }
{
    let values = all_values(config.alloc, env(config), exprs)?;
    go(config, 0)?;
    write_all(config, targets, &values);
    Ok(Moved::Went)
}

/// A chosen value for a column.
#[tactic(auto, using(crate::proofs::Going::written_after))]
pub(crate) fn guess(
    config: &mut Config<'_>,
    column: Column,
    chosen: i128,
) -> Result<Moved, RunFault>
    requires fits { FitsProgram config.old.program.now config.old }
    requires here { told (happening config.old) ≡ Guess column }
    ensures answer { Performs config.old chosen (Guess column) result config.new }
    ensures fits { FitsProgram config.old.program.now config.new }
{
    go(config, 0)?;
    write(config, column, chosen);
    Ok(Moved::Went)
}

/// Way 0 where the condition is true, way 1 where it is false.
#[tactic(auto, using(crate::proofs::ToldLemmas::ways_told))]
pub(crate) fn test(config: &mut Config<'_>, cond: &TExpr) -> Result<Moved, RunFault>
    requires fits { FitsProgram config.old.program.now config.old }
    requires here { told (happening config.old) ≡ Test (view.expression cond.now) }
    ensures answer { Performs config.old (pos 0) (Test (view.expression cond.now)) result config.new }
    ensures fits { FitsProgram config.old.program.now config.new }
{
    let way = if value(env(config), cond)? == 0 { 1 } else { 0 };
    go(config, way)?;
    Ok(Moved::Went)
}

/// The chosen way.
#[tactic(auto, using(crate::proofs::ToldLemmas::ways_told))]
pub(crate) fn pick(config: &mut Config<'_>, ways: usize, chosen: i128) -> Result<Moved, RunFault>
    requires fits { FitsProgram config.old.program.now config.old }
    requires here { told (happening config.old) ≡ Pick ways }
    requires way { is_below chosen ways ≡ true }
    ensures answer { Performs config.old chosen (Pick ways) result config.new }
    ensures fits { FitsProgram config.old.program.now config.new }
{
    go(config, chosen as usize)?;
    Ok(Moved::Went)
}

/// On to another point.
pub(crate) fn jump(config: &mut Config<'_>) -> Result<Moved, RunFault>
    requires fits { FitsProgram config.old.program.now config.old }
    requires here { told (happening config.old) ≡ Jump }
    ensures answer { Performs config.old (pos 0) Jump result config.new }
    ensures fits { FitsProgram config.old.program.now config.new }
{
    go(config, 0)?;
    Ok(Moved::Went)
}
