//! What is seen of a configuration: the frame that runs, what happens there, and what it reads.

ghost use Rattle.std.specs.Prelude.{◌≡◌, ◌∷◌, [], List, IfOk, IsOk, IfErr, MatchOption, length};
ghost use Rattle.typed_tree.specs.TypedView as view;
ghost use Rattle.typed_tree.specs.Values as spec;
ghost use Rattle.typed_tree.specs.TypingRules.TypedParts.{typed_program};
ghost use Rattle.boogie_run.specs.BoogiePoints.Actions as actions;
ghost use Rattle.boogie_run.specs.BoogiePoints.Told.{told};
ghost use Rattle.boogie_run.specs.BoogiePoints.View.{action_view};
ghost use Rattle.boogie_run.specs.Configurations.{Frame, state_of};
ghost use Rattle.boogie_run.specs.Steps.{is_true};
ghost use Rattle.boogie_run.specs.RunView.{frame_of, config_of, FitsProgram};

use crate::boogie_points::Action;
use crate::configurations::{Config, RunFrame};
use crate::evaluation::{column, value};
use crate::frames::{env, top};
use crate::stepping::action_here;
use crate::types::RunFault;
use boogie_tree::Column;
use typed_tree::TExpr;
use typed_tree::typing_rules::Typed;

/// The frame that runs.
pub fn running<'c, 'a>(program: &Typed, config: &'c Config<'a>) -> &'c RunFrame<'a>
    requires fits { FitsProgram program.now config.now }
    ensures { frame_of result.now ≡ (config_of config.now).top }
{
    top(config)
}

/// How many calls are open.
pub fn open_calls(program: &Typed, config: &Config<'_>) -> usize
    requires fits { FitsProgram program.now config.now }
    ensures { result ≡ length (config_of config.now).below }
{
    config.frames.len() - 1
}

/// The frame to which the one that runs returns, where there is one.
pub fn calling<'c, 'a>(program: &Typed, config: &'c Config<'a>) -> Option<&'c RunFrame<'a>>
    requires fits { FitsProgram program.now config.now }
    ensures { MatchOption result ((config_of config.now).below ≡ []) (λ f. (fs : List Frame) × ((config_of config.now).below ≡ frame_of f.now ∷ fs)) }
{
    let count = config.frames.len();
    if count < 2 {
        return None;
    }
    Some(&config.frames[count - 2])
}

/// What happens where the frame that runs stands.
pub fn happens<'a>(program: &Typed, config: &Config<'a>) -> Action<'a>
    requires fits { FitsProgram program.now config.now }
    ensures { action_view result ≡ told (actions.action_at (typed_program program.now) (config_of config.now).top.proc (config_of config.now).top.point) }
{
    action_here(config)
}

/// What a column holds in the frame that runs, 0 where it is not there.
pub fn held(program: &Typed, config: &Config<'_>, read: Column) -> i128
    requires fits { FitsProgram program.now config.now }
    ensures { result ≡ spec.column_value (state_of (config_of config.now)) read }
{
    column(env(config), read)
}

/// Whether a condition is true in the frame that runs. Refused where the value of a part does not fit.
pub fn holds(program: &Typed, config: &Config<'_>, cond: &TExpr) -> Result<bool, RunFault>
    requires fits { FitsProgram program.now config.now }
    ensures value { IfOk result (λ yes. yes ≡ is_true (spec.value (state_of (config_of config.now)) (view.expression cond.now))) }
    ensures fit { IsOk result → spec.PartsFit (state_of (config_of config.now)) (view.expression cond.now) }
    ensures number { IfErr result (λ e. (e ≡ RunFault.Number) × (spec.PartsFit (state_of (config_of config.now)) (view.expression cond.now) → ⊥)) }
{
    Ok(value(env(config), cond)? != 0)
}
