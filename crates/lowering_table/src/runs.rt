//! The runs of programs that points of the rows of words tell.

ghost use Rattle.std.specs.Prelude.{◌≡◌, length, IsTrue, IfOk};
ghost use Rattle.std.specs.List.{AllByRecursion};
ghost use Rattle.math_facts.specs.Fits.{Fits};
ghost use Rattle.lin_rows.specs.Rows.{Holds};
ghost use Rattle.lin_rows.specs.Points.{point_of};
ghost use Rattle.typed_tree.specs.TypingRules.TypedParts.{typed_program};
ghost use Rattle.nwa_base.specs.Acceptance.{Accepts};
ghost use Rattle.lowered_graph.specs.Lowered.{lowered};
ghost use Rattle.path_rows.specs.Paths.{path_of};

use crate::printing::{end_line, show_line, show_number, show_value};
use icfg_lower::lower;
use letter_acts::{Act, Icfg};
use lin_rows::all_hold;
use nwa_base::{Kind, Letter, Word, accepts, word};
use path_rows::rows_of;
use std::alloc::{AllocError, Global};
use trace_replay::{ReplayFault, Trail, choices_of, replay};
use typed_tree::typing_rules::Typed;

/// The kind of a letter that does this, and the call letter that it names.
fn kind_of(act: &Act) -> (Kind, u32) {
    match act {
        Act::Inside { .. } => (Kind::Inside, 0),
        Act::Call { .. } => (Kind::Call, 0),
        Act::Back { call, .. } => (Kind::Back, *call),
    }
}

/// The letter of that number; an inside letter where there is none.
fn letter(acts: &[Act], id: u32) -> Letter {
    let (kind, call) = match acts.get(id as usize) {
        Some(act) => kind_of(act),
        None => (Kind::Inside, 0),
    };
    Letter { id, kind, call }
}

fn push_letters(letters: &mut Vec<Letter>, acts: &[Act], ids: &[u32]) -> Result<(), AllocError> {
    for id in ids {
        letters.push(letter(acts, *id))?;
    }
    Ok(())
}

/// The word of the letters of these numbers.
fn spelled(alloc: Global, acts: &[Act], ids: &[u32]) -> Result<Option<Word>, AllocError> {
    let mut letters = Vec::new(alloc);
    push_letters(&mut letters, acts, ids)?;
    Ok(word(letters))
}

fn all_fit(point: &[i128]) -> bool
    ensures { IsTrue result → AllByRecursion Fits point.now }
{
    for value in point {
        if *value == i128::MIN {
            return false;
        }
    }
    true
}

fn show_fails(rt: &HostRuntime, number: u32, line: u32) {
    show_number(rt, " fails ", number);
    show_number(rt, " line ", line);
    end_line(rt);
}

/// What the run takes, and the assertion that fails at its end, found by replaying it.
fn show_trail(rt: &HostRuntime, program: &Typed, trail: &Trail) {
    show_steps(rt, trail);
    match replay(rt.alloc(), program, trail) {
        Ok(id) => show_fails(rt, id.number, id.line),
        Err(_) => show_line(rt, " does not replay"),
    }
}

/// How many steps the run has, and its choices.
fn show_steps(rt: &HostRuntime, trail: &Trail) {
    let steps = trail.steps;
    let _ = print!(rt; "steps {steps} choices");
    for choice in &trail.choices {
        show_value(rt, " ", choice.0);
    }
}

/// Whether the point has a value for each column of the rows of the word, and meets them.
fn is_solved(alloc: Global, graph: &Icfg, word: &Word, point: &[i128]) -> Result<bool, AllocError>
    requires { Accepts graph.now.automaton word.now }
    ensures solves { IfOk result (λ yes. IsTrue yes → AllByRecursion (Holds (point_of point.now)) (path_of graph.now word.now).rows) }
    ensures fits { IfOk result (λ yes. IsTrue yes → AllByRecursion Fits point.now) }
{
    if !all_fit(point) {
        return Ok(false);
    }
    let path = rows_of(alloc, graph, word)?;
    if path.column_at().len() != point.len() {
        return Ok(false);
    }
    Ok(all_hold(&path.system().rows, point))
}

/// The run that the point tells, or the step at which a value of it does not fit.
fn show_choices(rt: &HostRuntime, program: &Typed, graph: &Icfg, word: &Word, point: &[i128])
    requires lowered { graph.now ≡ lowered (typed_program program.now) }
    requires accepted { Accepts graph.now.automaton word.now }
    requires solves { AllByRecursion (Holds (point_of point.now)) (path_of graph.now word.now).rows }
    requires fits { AllByRecursion Fits point.now }
{
    match choices_of(rt.alloc(), program, graph, word, point) {
        Ok(trail) => show_trail(rt, program, &trail),
        Err(ReplayFault::At { step, cause }) => {
            let _ = println!(rt; "{cause:?} at step {step}");
        }
        Err(ReplayFault::Memory) => show_line(rt, "memory"),
    }
}

/// The run that a point of the rows of the word tells.
fn show_word(rt: &HostRuntime, program: &Typed, graph: &Icfg, word: &Word, point: &[i128])
    requires { graph.now ≡ lowered (typed_program program.now) }
{
    if !accepts(rt.alloc(), graph.nwa(), word).unwrap_or(false) {
        return show_line(rt, "not accepted");
    }
    if !is_solved(rt.alloc(), graph, word, point).unwrap_or(false) {
        return show_line(rt, "no point of the rows");
    }
    show_choices(rt, program, graph, word, point);
}

/// The run that a point of the rows of the word with these letters tells.
fn show_letters(rt: &HostRuntime, program: &Typed, graph: &Icfg, letters: &[u32], point: &[i128])
    requires { graph.now ≡ lowered (typed_program program.now) }
{
    match spelled(rt.alloc(), graph.acts(), letters) {
        Ok(Some(word)) => show_word(rt, program, graph, &word, point),
        _ => show_line(rt, "no word"),
    }
}

/// The run of a program that letters and a point tell.
pub(crate) fn show_run(rt: &HostRuntime, program: &Typed, letters: &[u32], point: &[i128]) {
    match lower(rt.alloc(), program) {
        Ok(graph) => show_letters(rt, program, &graph, letters, point),
        Err(_) => show_line(rt, "not lowered"),
    }
}
