//! One step of a run, and its line.

ghost use Rattle.std.specs.Prelude.{◌≡◌, ◌++◌, ℕ, List, false, IfOk, OnOk};
ghost use Rattle.std.specs.Option.{option_map, option_to_list};
ghost use Rattle.boogie_tree.specs.Tree.{Declaration};
ghost use Rattle.math_facts.specs.Optional.{or_zero};
ghost use Rattle.typed_tree.specs.TypingRules.TypedParts.{typed_program};
ghost use Rattle.boogie_run.specs.Fitting.{NextFits};
ghost use Rattle.boogie_run.specs.RunView.{config_of, FitsProgram};
ghost use Rattle.boogie_run.specs.StepView.{need_view};
ghost use Rattle.trace_replay.specs.FailureText.{numbers};
ghost use Rattle.trace_replay.specs.NextChoices.{next_choice};
ghost use Rattle.trace_replay.specs.ReplayAnswers.{TurnsTo};
ghost use Rattle.explain_top.specs.RunStory.Ties.Changes.{changed_columns};
ghost use Rattle.explain_top.specs.RunStory.Lines.{Adds};
ghost use Rattle.explain_top.specs.RunStory.Seen.{item_of};
ghost use Rattle.explain_top.specs.RunStory.Ties.Steps.{IsBegun, TellsStep, told_behind};
ghost use Rattle.explain_top.specs.RunStory.Tables.{IsTable};
ghost use Rattle.explain_top.specs.RunStory.Sites.{site_at};
ghost use Rattle.explain_top.specs.RunStory.Texts.{place_text, told_line};

use crate::run_story::changes::{Changes, note_changes, step_changes};
use crate::run_story::lines::{Line, add};
use crate::run_story::reading::notes_before;
use crate::run_story::sites::{site, site_at};
use crate::run_story::sources::{Source, end, span, text};
use crate::run_story::tables::Table;
use boogie_run::{Choice, Config, Need, needs, open_calls};
use boogie_tree::Span;
use boogie_tree::printing::{append, indentation, literal};
use std::alloc::{AllocError, Global};
use trace_replay::{Turn, one_step};
use typed_tree::typing_rules::Typed;

/// The next choice as a number; 0 where none is needed, or none is left.
fn next_number(need: Need, left: &[Choice]) -> i128
    ensures { result ≡ or_zero (next_choice (need_view need) (numbers left.now)).0 }
{
    if need == Need::Nothing {
        return 0;
    }
    match left {
        [Choice(value), ..] => *value,
        [] => 0,
    }
}

/// The line of an item in so many open calls, without its end.
fn place(alloc: Global, source: Source<'_>, calls: usize) -> Result<Line, AllocError>
    ensures text { IfOk result (λ line. line.text.items ≡ place_text (item_of source.entry) calls) }
    ensures noted { IfOk result (λ line. line.noted ≡ false) }
{
    let mut out = Vec::new(alloc);
    push_place(&mut out, source, calls)?;
    Ok(Line {
        text: out,
        noted: false,
    })
}

/// Where an item stands, and its line in so many open calls.
fn push_place(out: &mut Vec<u8>, source: Source<'_>, calls: usize) -> Result<(), AllocError>
    ensures { OnOk result (out.new.items ≡ out.old.items ++ place_text (item_of source.entry) calls) }
{
    let at = span(source);
    literal(out, i128::from(at.line))?;
    append(out, b":")?;
    literal(out, i128::from(at.col))?;
    append(out, b" ")?;
    indentation(out, calls)?;
    text(out, source)?;
    append(out, end(source))
}

/// The line of the item of a procedure at that place, or where it returns, in so many open calls, with one note or none.
pub fn item_line(
    alloc: Global,
    table: &Table<'_>,
    proc: usize,
    at: Option<Span>,
    calls: usize,
    note: Option<&[u8]>,
) -> Result<Vec<u8>, AllocError>
    ensures { IfOk result (λ line. (ds : List Declaration) → IsTable ds table.now → line.items ≡ told_line (site_at ds proc at) calls (option_to_list (option_map (λ n. n.now) note.entry))) }
{
    let mut line = place(alloc, site_at(table, proc, at), calls)?;
    if let Some(note) = note {
        add(&mut line, note)?;
    }
    append(&mut line.text, b"\n")?;
    let Line { text, noted: _ } = line;
    Ok(text)
}

/// The line of the next step, with what is told before it.
fn begun(
    alloc: Global,
    table: &Table<'_>,
    program: &Typed,
    config: &Config<'_>,
    left: &[Choice],
) -> Result<Line, AllocError>
    requires fits { FitsProgram program.now config.now }
    ensures { IfOk result (λ line. (ds : List Declaration) → IsTable ds table.now → NextFits (typed_program program.now) (config_of config.now) → IsBegun (typed_program program.now) ds (config_of config.now) (numbers left.now) line) }
{
    let source = site(table, program, config);
    let chosen = next_number(needs(program, config), left);
    let mut line = place(alloc, source, open_calls(program, config))?;
    notes_before(alloc, &mut line, table, program, config, source, chosen)?;
    Ok(line)
}

/// Adds what is told behind a step that changes these columns.
fn note_behind(
    line: &mut Line,
    program: &Typed,
    config: &Config<'_>,
    turn: Turn<'_>,
    changes: Changes<'_>,
) -> Result<(), AllocError>
    requires fits { FitsProgram program.now config.now }
    ensures { OnOk result (Adds line.old (told_behind (typed_program program.now) (config_of config.now) turn.entry (changed_columns (typed_program program.now) changes.entry)) line.new) }
{
    match turn {
        Turn::GoesOn(_) => note_changes(line, program, config, changes),
        // of a step that fails nothing changes
        Turn::Fails(_) | Turn::FailsEarly(_) | Turn::Stops(_) => Ok(()),
    }
}

/// A step, and its line.
pub(crate) struct ToldStep<'a> {
    pub(crate) turn: Turn<'a>,
    pub(crate) line: Vec<u8>,
}

/// Makes one step, with the next of the choices that are left, where it takes one, and tells it.
pub(crate) fn tell_step<'a>(
    alloc: Global,
    table: &Table<'_>,
    program: &Typed,
    config: &mut Config<'_>,
    left: &'a [Choice],
) -> Result<ToldStep<'a>, AllocError>
    requires { FitsProgram program.now config.old }
    ensures turns { IfOk result (λ s. TurnsTo (typed_program program.now) (config_of config.old) (numbers left.now) (config_of config.new) s.turn) }
    ensures line { IfOk result (λ s. (ds : List Declaration) → IsTable ds table.now → TellsStep (typed_program program.now) ds (config_of config.old) (numbers left.now) (config_of config.new) s.turn s.line.items) }
    ensures fits { FitsProgram program.now config.new }
{
    let mut line = begun(alloc, table, program, config, left)?;
    let changes = step_changes(program, config);
    let turn = one_step(program, config, left)?;
    note_behind(&mut line, program, config, turn, changes)?;
    append(&mut line.text, b"\n")?;
    let Line {
        text: line,
        noted: _,
    } = line;
    Ok(ToldStep { turn, line })
}
