//! The choices of the letters of a word.

ghost use Rattle.std.specs.Prelude.{◌≡◌, ◌+◌, ◌++◌, map, drop, IfOk, OnOk};
ghost use Rattle.std.specs.List.{AllByRecursion};
ghost use Rattle.math_facts.specs.Fits.{Fits};
ghost use Rattle.lin_rows.specs.Points.{point_of};
ghost use Rattle.typed_tree.specs.TypingRules.TypedParts.{typed_program};
ghost use Rattle.nwa_base.specs.Runs.{IsAcceptingRun};
ghost use Rattle.lowered_graph.specs.LoweredSteps.Edges.{columns_before_locals};
ghost use Rattle.lowered_graph.specs.Lowered.{lowered};
ghost use Rattle.lowered_graph.specs.LoweredChoices.Choices.{trace_choices};
ghost use Rattle.trace_replay.specs.PathTraces.Solved.{next_positions};
ghost use Rattle.trace_replay.specs.ToldChoices.Telling.{first_to, first_choices, kind_choices, letter_choices, all_choices, ChoicesFit, PositionFits};
ghost use Rattle.trace_replay.specs.ToldChoices.Ties.Views.{plain_kind, plain_kinds, plain_position, plain_positions};

use crate::told_choices::columns::before_locals;
use crate::told_choices::imports::add_import;
use crate::told_choices::kinds::{Kind, kind_at};
use crate::told_choices::positions::{Position, positions_of};
use crate::told_choices::table::kinds_of;
use crate::told_choices::values::value_at;
use boogie_run::boogie_places::laws::places_of_typed_programs;
use letter_acts::Icfg;
use nwa_base::{Letter, Nwa, Word};
use std::alloc::{AllocError, Global};
use typed_tree::typing_rules::Typed;

/// Which of the edges is the first that leads to that state; how many they are where none does.
fn first_to(edges: &[(u32, Letter, u32)], to: u32) -> usize
    ensures { result ≡ first_to to edges.now }
{
    for (place, edge) in edges.iter().enumerate() {
        if edge.2 == to {
            return place;
        }
    }
    edges.len()
}

/// Adds a choice for each value.
fn add_some(told: &mut Vec<Option<i128>>, values: &[i128]) -> Result<(), AllocError>
    ensures value { OnOk result (told.new.items ≡ told.old.items ++ map Some values.now) }
    ensures fits { OnOk result (AllByRecursion Fits values.now → ChoicesFit told.old.items → ChoicesFit told.new.items) }
{
    for value in values {
        told.push(Some(*value))?;
    }
    Ok(())
}

/// Adds a choice for each value from that number on.
fn add_from(told: &mut Vec<Option<i128>>, values: &[i128], first: usize) -> Result<(), AllocError>
    ensures value { OnOk result (told.new.items ≡ told.old.items ++ map Some (drop first values.now)) }
    ensures fits { OnOk result (AllByRecursion Fits values.now → ChoicesFit told.old.items → ChoicesFit told.new.items) }
{
    if first >= values.len() {
        return Ok(());
    }
    add_some(told, &values[first..])
}

/// Adds the choices of the start: the constants and globals, and then the locals of the entry.
fn add_first(
    told: &mut Vec<Option<i128>>,
    program: &Typed,
    before: usize,
    values: &[i128],
) -> Result<(), AllocError>
    requires { before ≡ columns_before_locals (typed_program program.now) }
    ensures value { OnOk result (told.new.items ≡ told.old.items ++ first_choices (typed_program program.now) values.now) }
    ensures fits { OnOk result (AllByRecursion Fits values.now → ChoicesFit told.old.items → ChoicesFit told.new.items) }
{
    let globals = program.globals().len().min(values.len());
    add_some(told, &values[..globals])?;
    add_from(told, values, before)
}

/// Adds the choices of the steps at a place of this kind, from which these inside edges lead, on the way to a position.
fn add_kind(
    told: &mut Vec<Option<i128>>,
    program: &Typed,
    before: usize,
    kind: &Kind,
    edges: &[(u32, Letter, u32)],
    next: &Position,
) -> Result<(), AllocError>
    requires { before ≡ columns_before_locals (typed_program program.now) }
    ensures value { OnOk result (told.new.items ≡ told.old.items ++ kind_choices (typed_program program.now) edges.now (plain_kind kind.now) (plain_position next.now)) }
    ensures fits { OnOk result (PositionFits (plain_position next.now) → ChoicesFit told.old.items → ChoicesFit told.new.items) }
{
    match kind {
        Kind::Silent => told.push(None)?,
        Kind::Guesses(column) => told.push(Some(value_at(&next.values, *column)))?,
        Kind::Picks => told.push(Some(first_to(edges, next.place) as i128))?,
        Kind::Enters(arguments) => {
            told.push(None)?;
            add_from(told, &next.values, before.saturating_add(*arguments))?;
        }
        Kind::Imports(callee, targets) => {
            add_import(told, program, *callee, targets, &next.helpers, &next.values)?;
        }
    }
    Ok(())
}

/// Adds the choices of a letter from this place to a position.
fn add_letter(
    told: &mut Vec<Option<i128>>,
    program: &Typed,
    before: usize,
    kinds: &[Kind],
    nwa: &Nwa,
    here: u32,
    next: &Position,
) -> Result<(), AllocError>
    requires { before ≡ columns_before_locals (typed_program program.now) }
    ensures value { OnOk result (told.new.items ≡ told.old.items ++ letter_choices (typed_program program.now) (plain_kinds kinds.now) nwa.now.insides here (plain_position next.now)) }
    ensures fits { OnOk result (PositionFits (plain_position next.now) → ChoicesFit told.old.items → ChoicesFit told.new.items) }
{
    let Some(kind) = kind_at(kinds, here) else {
        return Ok(());
    };
    add_kind(told, program, before, kind, nwa.insides_leaving(here), next)?;
    Ok(())
}

/// The choices of all letters that lead to these positions.
fn all_choices(
    alloc: Global,
    program: &Typed,
    kinds: &[Kind],
    nwa: &Nwa,
    positions: &[Position],
) -> Result<Vec<Option<i128>>, AllocError>
    requires { AllByRecursion PositionFits (plain_positions positions.now) }
    ensures value { IfOk result (λ v. v.items ≡ all_choices (typed_program program.now) (plain_kinds kinds.now) nwa.now.insides (plain_positions positions.now)) }
    ensures fits { IfOk result (λ v. ChoicesFit v.items) }
{
    let mut told = Vec::new(alloc);
    let Some((first, more)) = positions.split_first() else {
        return Ok(told);
    };
    let before = before_locals(program.globals());
    add_first(&mut told, program, before, &first.values)?;
    let mut here = first.place;
    for next in more {
        add_letter(&mut told, program, before, kinds, nwa, here, next)?;
        here = next.place;
    }
    Ok(told)
}

/// What the steps of the program's run take, one after another, that a point of the word's rows and an accepting run over the word tell: a value, or
/// nothing. Its time is linear in the program, the rows of the word, and the sizes of the frames along it.
pub fn told_choices(
    alloc: Global,
    program: &Typed,
    icfg: &Icfg,
    word: &Word,
    run: &[u32],
    point: &[i128],
) -> Result<Vec<Option<i128>>, AllocError>
    requires lowered { icfg.now ≡ lowered (typed_program program.now) }
    requires accepting { IsAcceptingRun icfg.now.automaton word.now run.now }
    requires fits { AllByRecursion Fits point.now }
    ensures value { IfOk result (λ v. v.items ≡ trace_choices (typed_program program.now) (next_positions (point_of point.now) icfg.now word.now run.now)) }
    ensures fits { IfOk result (λ v. ChoicesFit v.items) }
{
    places_of_typed_programs();
    let _globals = program.globals();
    let kinds = kinds_of(alloc, program, icfg)?;
    let positions = positions_of(alloc, icfg, word, run, point)?;
    all_choices(alloc, program, &kinds, icfg.nwa(), &positions)
}
