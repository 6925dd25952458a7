//! The story of a run that fails.

ghost use Rattle.std.specs.Prelude.{◌≡◌, ◌++◌, ◌∷◌, [], ℕ, List, length, IfOk, IfErr, OnOk, MatchResult};
ghost use Rattle.std.specs.List.{concat};
ghost use Rattle.boogie_tree.specs.Tree.{Declaration};
ghost use Rattle.boogie_tree.specs.View as view;
ghost use Rattle.typed_tree.specs.TypingRules.TypedParts.{typed_program};
ghost use Rattle.boogie_run.specs.declared.types.AssertId.{AssertId};
ghost use Rattle.boogie_run.specs.Steps.{start};
ghost use Rattle.boogie_run.specs.RunView.{config_of, FitsProgram};
ghost use Rattle.trace_replay.specs.FailureText.{numbers};
ghost use Rattle.trace_replay.specs.Replays.{Replays};
ghost use Rattle.trace_replay.specs.ReplayAnswers.{IsStopOf, TurnsTo};
ghost use Rattle.trace_replay.specs.declared.causes.ReplayFault.TheVariants.{Memory};
ghost use Rattle.explain_top.specs.RunStory.Lines.{Keeps};
ghost use Rattle.explain_top.specs.RunStory.Story.{IsStory, fails_line};
ghost use Rattle.explain_top.specs.RunStory.Tables.{IsTable};
ghost use Rattle.explain_top.specs.RunStory.Texts.{shortened};
ghost use Rattle.explain_top.specs.RunStory.Ties.Steps.{TellsStep};

use crate::run_story::keeping::{Lines, finish, keep, no_lines};
use crate::run_story::steps::{ToldStep, tell_step};
use crate::run_story::tables::{Table, table_of};
use boogie_run::{AssertId, Choice, Config, start};
use boogie_tree::Program;
use boogie_tree::printing::{append, literal};
use std::alloc::{AllocError, Global};
use trace_replay::{ReplayCause, ReplayFault, Trail, Turn};
use typed_tree::typing_rules::Typed;

/// The last line.
fn fails(out: &mut Vec<u8>, id: AssertId) -> Result<(), AllocError>
    ensures { OnOk result (out.new.items ≡ out.old.items ++ fails_line id) }
{
    append(out, b"assertion ")?;
    literal(out, i128::from(id.number))?;
    append(out, b" line ")?;
    literal(out, i128::from(id.line))?;
    append(out, b" fails\n")
}

/// All lines, of which there are so many, and the last one.
fn ended(lines: Lines, count: u64, id: AssertId) -> Result<Vec<u8>, AllocError>
    ensures { IfOk result (λ text. (ls : List (List ℕ)) → length ls ≡ count → Keeps ls lines → text.items ≡ concat (shortened lines.all ls) ++ fails_line id) }
{
    let mut text = finish(lines, count)?;
    fails(&mut text, id)?;
    Ok(text)
}

/// Tells a run that fails: a line for each step, and the assertion that fails. Of more than 200 steps those in the middle are left out, unless all are
/// wanted. A run that does not replay is refused as by `replay`.
pub fn story(
    alloc: Global,
    tree: &Program,
    program: &Typed,
    trail: &Trail,
    all: bool,
) -> Result<Vec<u8>, ReplayFault>
    ensures found { IfOk result (λ text. (id : AssertId) × IsStory (typed_program program.now) (view.program tree.now) all trail.now.steps (numbers trail.now.choices.items) id text.items) }
    ensures stopped { IfErr result (IsStopOf (typed_program program.now) trail.now.steps (numbers trail.now.choices.items)) }

    // a run that replays is told, unless memory runs out
    ensures replays { (i : ℕ) → Replays (typed_program program.now) trail.now.steps (numbers trail.now.choices.items) i → MatchResult result (λ text. Unit {0}) (λ e. e ≡ Memory) }
{
    let table = table_of(alloc, tree)?;
    let mut config = start(alloc, program)?;
    told_run(alloc, &table, program, trail, all, &mut config)
}

/// Tells the run from the start on.
fn told_run(
    alloc: Global,
    table: &Table<'_>,
    program: &Typed,
    trail: &Trail,
    all: bool,
    config: &mut Config<'_>,
) -> Result<Vec<u8>, ReplayFault>
    requires fits { FitsProgram program.now config.old }
    requires start { config_of config.old ≡ start (typed_program program.now) }
    ensures found { IfOk result (λ text. (ds : List Declaration) → IsTable ds table.now →
        (id : AssertId) × IsStory (typed_program program.now) ds all trail.now.steps (numbers trail.now.choices.items) id text.items) }
    ensures stopped { IfErr result (IsStopOf (typed_program program.now) trail.now.steps (numbers trail.now.choices.items)) }
{
    let mut lines = no_lines(alloc, all);
    let (count, id) = tell_steps(alloc, table, program, trail, config, &mut lines)?;
    Ok(ended(lines, count, id)?)
}

/// Makes and tells the steps, from the start on: how many they are, and the assertion that the last one fails.
fn tell_steps(
    alloc: Global,
    table: &Table<'_>,
    program: &Typed,
    trail: &Trail,
    config: &mut Config<'_>,
    lines: &mut Lines,
) -> Result<(u64, AssertId), ReplayFault>
    requires fits { FitsProgram program.now config.old }
    requires start { config_of config.old ≡ start (typed_program program.now) }
    requires none { Keeps [] lines.old }
    ensures found { IfOk result (λ r. (ds : List Declaration) → IsTable ds table.now → (text : List ℕ) →
        ((ls : List (List ℕ)) → length ls ≡ r.0 → Keeps ls lines.new → text ≡ concat (shortened lines.new.all ls) ++ fails_line r.1) →
        IsStory (typed_program program.now) ds lines.old.all trail.now.steps (numbers trail.now.choices.items) r.1 text) }
    ensures stopped { IfErr result (IsStopOf (typed_program program.now) trail.now.steps (numbers trail.now.choices.items)) }
{
    let mut left = trail.choices.as_slice();
    for made in 0..trail.steps {
        match keep_step(alloc, table, program, config, left, lines, made)? {
            Turn::GoesOn(rest) => left = rest,
            Turn::Fails(id) => return Ok((made + 1, id)),
            Turn::FailsEarly(_) => {
                return Err(ReplayFault::At {
                    step: made + 1,
                    cause: ReplayCause::BadChoice,
                });
            }
            Turn::Stops(cause) => {
                return Err(ReplayFault::At {
                    step: made + 1,
                    cause,
                });
            }
        }
    }
    Err(ReplayFault::At {
        step: trail.steps,
        cause: ReplayCause::Short,
    })
}

/// Makes one step and keeps its line, before which so many stand.
fn keep_step<'a>(
    alloc: Global,
    table: &Table<'_>,
    program: &Typed,
    config: &mut Config<'_>,
    left: &'a [Choice],
    lines: &mut Lines,
    made: u64,
) -> Result<Turn<'a>, AllocError>
    requires fits { FitsProgram program.now config.old }
    ensures turns { IfOk result (λ u. TurnsTo (typed_program program.now) (config_of config.old) (numbers left.now) (config_of config.new) u) }
    ensures kept { IfOk result (λ u. (text : List ℕ)
        × ((ds : List Declaration) → IsTable ds table.now → TellsStep (typed_program program.now) ds (config_of config.old) (numbers left.now) (config_of config.new) u text)
        × ((ls : List (List ℕ)) → length ls ≡ made → Keeps ls lines.old → Keeps (ls ++ text ∷ []) lines.new)) }
    ensures all { OnOk result (lines.new.all ≡ lines.old.all) }
    ensures fits { FitsProgram program.now config.new }
{
    let ToldStep { turn, line } = tell_step(alloc, table, program, config, left)?;
    keep(lines, made, line)?;
    Ok(turn)
}
