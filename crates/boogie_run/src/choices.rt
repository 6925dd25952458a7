//! What the next step takes, and choices that it takes.

ghost use Rattle.std.specs.Prelude.{◌≡◌, true, Option, slice_get, IfOk};
ghost use Rattle.std.specs.Option.{option_copied};
ghost use Rattle.typed_tree.specs.TypingRules.TypedParts.{typed_program};
ghost use Rattle.boogie_run.specs.BoogiePoints.View.{action_view};
ghost use Rattle.boogie_run.specs.Needs as spec;
ghost use Rattle.boogie_run.specs.ToldActs.{told_need};
ghost use Rattle.boogie_run.specs.StepView.{need_view, choice_view, IsChoice, is_way};

use crate::boogie_points::Action;
use crate::types::{Choice, Need, RunFault};
use boogie_tree::{Column, Ty, VarInfo};
use typed_tree::typing_rules::Typed;

/// The choice as a number, where it is one that the need takes.
pub(crate) fn taken(need: Need, choice: Option<Choice>) -> Result<i128, RunFault>
    ensures choice { IsChoice (need_view need) (choice_view choice) result }
    ensures way { IfOk result (λ v. is_way (need_view need) v ≡ true) }
{
    match (need, choice) {
        (Need::Nothing, None) => Ok(0),
        (Need::Nothing, Some(_)) => Err(RunFault::BadChoice),
        (_, None) => Err(RunFault::NeedsChoice),
        (Need::Whole, Some(Choice(value))) => Ok(value),
        (Need::Truth, Some(Choice(value))) => below(value, 2),
        (Need::Below(bound), Some(Choice(value))) => below(value, bound),
    }
}

fn below(value: i128, bound: usize) -> Result<i128, RunFault>
    ensures { IsChoice (spec.Below bound) (Option.Some value) result }
{
    if value >= 0 && value < bound as i128 {
        Ok(value)
    } else {
        Err(RunFault::BadChoice)
    }
}

/// The locals of a procedure; none where there is no such procedure.
pub fn locals_at(program: &Typed, proc: u32) -> &[VarInfo]
    ensures { result.now ≡ spec.locals_at (typed_program program.now) proc }
{
    match program.procs().get(proc as usize) {
        Some(found) => &found.locals,
        None => &[],
    }
}

/// A value of that variable; a whole number where there is none.
fn need_of(info: Option<&VarInfo>) -> Need
    ensures { need_view result ≡ spec.need_of (option_copied info.entry) }
{
    match info {
        Some(info) => match info.ty {
            Ty::Int => Need::Whole,
            Ty::Bool => Need::Truth,
        },
        None => Need::Whole,
    }
}

/// A value of the variable of that number; a whole number where there is none.
pub(crate) fn need_at(infos: &[VarInfo], n: usize) -> Need
    ensures { need_view result ≡ spec.need_of (slice_get infos.now n) }
{
    need_of(infos.get(n))
}

fn need_of_column(globals: &[VarInfo], locals: &[VarInfo], column: Column) -> Need
    ensures { need_view result ≡ spec.need_of_column globals.now locals.now column }
{
    match column {
        Column::Global(n) | Column::Old(n) => need_at(globals, n as usize),
        Column::Local(n) => need_at(locals, n as usize),
    }
}

/// What an action takes.
pub(crate) fn need_of_action(program: &Typed, proc: u32, action: Action<'_>) -> Need
    ensures { need_view result ≡ told_need (typed_program program.now) proc (action_view action.entry) }
{
    match action {
        Action::Guess { column } => {
            need_of_column(program.globals(), locals_at(program, proc), column)
        }
        Action::Pick { ways } => Need::Below(ways),
        Action::Keep {
            callee,
            args: _,
            column,
        } => need_of_column(program.globals(), locals_at(program, callee), column),
        _ => Need::Nothing,
    }
}
