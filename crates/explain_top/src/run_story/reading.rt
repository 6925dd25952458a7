//! What is told before a step: what it reads, and which way it takes.

ghost use Rattle.std.specs.Prelude.{◌≡◌, ◌++◌, ◌∷◌, [], List, false, map, IfOk, OnOk, if◌then◌else◌};
ghost use Rattle.std.specs.List.{flat_map};
ghost use Rattle.boogie_tree.specs.Tree.{Declaration};
ghost use Rattle.typed_tree.specs.TypedView as view;
ghost use Rattle.typed_tree.specs.TypingRules.TypedParts.{typed_program};
ghost use Rattle.typed_tree.specs.Values.{value, PartsFit};
ghost use Rattle.boogie_run.specs.BoogiePoints.Sites as points;
ghost use Rattle.boogie_run.specs.BoogiePoints.Actions.{action_at};
ghost use Rattle.boogie_run.specs.BoogiePoints.Told.{told};
ghost use Rattle.boogie_run.specs.Configurations.{state_of};
ghost use Rattle.boogie_run.specs.Steps.{is_true};
ghost use Rattle.boogie_run.specs.Fitting.{NextFits};
ghost use Rattle.boogie_run.specs.ToldActs.{ToldFits};
ghost use Rattle.boogie_run.specs.RunView.{config_of, FitsProgram};
ghost use Rattle.explain_top.specs.RunStory.Lines.{Adds};
ghost use Rattle.explain_top.specs.RunStory.Notes as spec;
ghost use Rattle.explain_top.specs.RunStory.Seen.{item_of};
ghost use Rattle.explain_top.specs.RunStory.Tables.{IsTable};

use crate::run_story::lines::{Line, next_note};
use crate::run_story::sites::item_at;
use crate::run_story::sources::{Source, take_way, text};
use crate::run_story::tables::Table;
use crate::run_story::values::{note, note_all, note_global, note_local};
use boogie_run::boogie_points::{Action, clause_at};
use boogie_run::{Config, happens, holds, locals_at, running};
use boogie_tree::Column;
use indexmap::IndexSet;
use std::alloc::{AllocError, Global};
use typed_tree::typing_rules::Typed;
use typed_tree::{TExpr, TExprKind};

/// The column that is read where that one stands, inside `old` or not.
fn column_read(old: bool, column: Column) -> Column
    ensures { result ≡ spec.column_read old column }
{
    match column {
        Column::Global(n) if old => Column::Old(n),
        _ => column,
    }
}

/// Adds the columns that an expression reads, inside `old` or not.
#[cycle(columns)]
#[tactic(auto, using(crate::proofs::RunStory::ReadingLemmas::once_both))]
fn columns(found: &mut IndexSet<Column>, old: bool, expr: &TExpr) -> Result<(), AllocError>
    ensures { OnOk result (found.new.keys ≡ spec.once found.old.keys (spec.columns_in old (view.expression expr.now))) }
{
    match &expr.kind {
        TExprKind::Lit(_) | TExprKind::Truth(_) => Ok(()),
        TExprKind::Var(column) => {
            found.insert(column_read(old, *column))?;
            Ok(())
        }
        TExprKind::Old(inner) => columns(found, true, inner),
        TExprKind::Not(inner) | TExprKind::Neg(inner) => columns(found, old, inner),
        TExprKind::Bin(_, a, b) => {
            columns(found, old, a)?;
            columns(found, old, b)
        }
    }
}

/// The columns that expressions read, each once, in order.
fn columns_of(alloc: Global, exprs: &[TExpr]) -> Result<IndexSet<Column>, AllocError>
    ensures { IfOk result (λ found. found.keys ≡ spec.once [] (flat_map (spec.columns_in false) (map view.expression exprs.now))) }
{
    let mut found = IndexSet::new(alloc);
    for expr in exprs {
        columns(&mut found, false, expr)?;
    }
    Ok(found)
}

/// Adds what expressions read.
fn readings(
    alloc: Global,
    line: &mut Line,
    program: &Typed,
    config: &Config<'_>,
    exprs: &[TExpr],
) -> Result<(), AllocError>
    requires fits { FitsProgram program.now config.now }
    ensures { OnOk result (Adds line.old (spec.readings (typed_program program.now) (config_of config.now) (map view.expression exprs.now)) line.new) }
{
    let found = columns_of(alloc, exprs)?;
    note_all(line, program, config, found.as_slice())
}

/// Adds what an expression reads.
fn reading(
    alloc: Global,
    line: &mut Line,
    program: &Typed,
    config: &Config<'_>,
    expr: &TExpr,
) -> Result<(), AllocError>
    requires fits { FitsProgram program.now config.now }
    ensures { OnOk result (Adds line.old (spec.readings (typed_program program.now) (config_of config.now) (view.expression expr.now ∷ [])) line.new) }
{
    let mut found = IndexSet::new(alloc);
    columns(&mut found, false, expr)?;
    note_all(line, program, config, found.as_slice())
}

/// Adds the clause of the called procedure of which a step at a call speaks.
fn clause(
    line: &mut Line,
    table: &Table<'_>,
    program: &Typed,
    config: &Config<'_>,
) -> Result<(), AllocError>
    requires fits { FitsProgram program.now config.now }
    ensures { OnOk result ((ds : List Declaration) → IsTable ds table.now → Adds line.old (spec.clause_text ds (points.clause_at (typed_program program.now) (config_of config.now).top.point)) line.new) }
{
    match clause_at(program, running(program, config).point()) {
        Some(at) => {
            next_note(line)?;
            text(&mut line.text, item_at(table, at))
        }
        None => Ok(()),
    }
}

/// The way that a test takes: 0 where the condition is true, 1 where it is false.
fn tested(program: &Typed, config: &Config<'_>, cond: &TExpr) -> u128
    requires fits { FitsProgram program.now config.now }
    ensures { PartsFit (state_of (config_of config.now)) (view.expression cond.now) → result ≡ (if is_true (value (state_of (config_of config.now)) (view.expression cond.now)) then 0 else 1) }
{
    match holds(program, config, cond) {
        Ok(true) => 0,
        // a value that does not fit ends the run at this step
        Ok(false) | Err(_) => 1,
    }
}

/// Adds what an action reads, and the way that it takes. The choice is told as a number.
fn read_by(
    alloc: Global,
    line: &mut Line,
    table: &Table<'_>,
    program: &Typed,
    config: &Config<'_>,
    source: Source<'_>,
    chosen: i128,
) -> Result<(), AllocError>
    requires fits { FitsProgram program.now config.now }
    ensures { OnOk result ((ds : List Declaration) → IsTable ds table.now → ToldFits (typed_program program.now) (config_of config.now) (told (action_at (typed_program program.now) (config_of config.now).top.proc (config_of config.now).top.point)) → Adds line.old (spec.read_by (typed_program program.now) ds (item_of source.entry) (config_of config.now) chosen (told (action_at (typed_program program.now) (config_of config.now).top.proc (config_of config.now).top.point))) line.new) }
{
    match happens(program, config) {
        Action::Check { cond, .. } => reading(alloc, line, program, config, cond),
        Action::Suppose { cond } => reading(alloc, line, program, config, cond),
        Action::Demand { args, .. } => {
            clause(line, table, program, config)?;
            readings(alloc, line, program, config, args)
        }
        Action::Write { .. } => Ok(()),
        Action::Guess { .. } => Ok(()),
        Action::Test { cond } => {
            reading(alloc, line, program, config, cond)?;
            take_way(line, source, tested(program, config, cond))
        }
        Action::Pick { .. } => take_way(line, source, chosen.unsigned_abs()),
        Action::Jump => Ok(()),
        Action::Enter { .. } => Ok(()),
        Action::Keep { callee, column, .. } => note(line, program, callee, column, chosen),
        Action::Grant { .. } => clause(line, table, program, config),
        Action::Finish { .. } => Ok(()),
        Action::Leave => Ok(()),
    }
}

/// Adds what is told before a step that stands at that item. Its choice is told as a number.
pub(crate) fn notes_before(
    alloc: Global,
    line: &mut Line,
    table: &Table<'_>,
    program: &Typed,
    config: &Config<'_>,
    source: Source<'_>,
    chosen: i128,
) -> Result<(), AllocError>
    requires fits { FitsProgram program.now config.now }
    ensures { OnOk result ((ds : List Declaration) → IsTable ds table.now → NextFits (typed_program program.now) (config_of config.now) → Adds line.old (spec.notes_before (typed_program program.now) ds (item_of source.entry) (config_of config.now) chosen) line.new) }
{
    let globals = config.globals().len();
    if globals < program.globals().len() {
        return note_global(line, program, globals, chosen);
    }
    let frame = running(program, config);
    let locals = frame.locals().len();
    if locals < locals_at(program, frame.proc()).len() {
        return note_local(line, program, frame.proc(), locals, chosen);
    }
    read_by(alloc, line, table, program, config, source, chosen)
}
