//! The steps of words' letters.

ghost use Rattle.std.specs.Prelude.{◌≡◌, IfOk};
ghost use Rattle.path_rows.specs.Paths.{IsPathOf};
ghost use Rattle.nested_itp.specs.NestedPredicates.Positions.{has_return};
ghost use Rattle.nested_itp.specs.NestedPredicates.Walking.{return_tests};

use crate::rows::{put, put_nothing, put_number, show_numbers};
use letter_acts::Icfg;
use nested_itp::triple_steps::{Section, Step, Tie, steps};
use nwa_base::{Kind, Letter};
use path_rows::PathSystem;
use std::alloc::{AllocError, Global};

/// Whether a call before the letters has a return in them.
fn has_return(letters: &[Letter]) -> bool
    ensures { result ≡ has_return 0 letters.now }
{
    let mut calls = 0usize;
    for letter in letters {
        match letter.kind {
            Kind::Inside => {}
            Kind::Call => calls += 1,
            Kind::Back => {
                if calls == 0 {
                    return true;
                }
                calls -= 1;
            }
        }
    }
    false
}

/// For each letter whether a call in its place has a return in the word.
fn returns(alloc: Global, letters: &[Letter]) -> Result<Vec<bool>, AllocError>
    ensures { IfOk result (λ v. v.items ≡ return_tests letters.now) }
{
    let mut tests = Vec::new(alloc);
    for i in 0..letters.len() {
        tests.push(has_return(&letters[i + 1..]))?;
    }
    Ok(tests)
}

/// Prints positions behind a word.
fn show_positions(rt: &HostRuntime, word: &str, positions: &[usize]) {
    put(rt, word);
    for position in positions {
        put_number(rt, " ", *position as u64, "");
    }
}

fn show_rows(rt: &HostRuntime, first: usize, count: usize) {
    put_number(rt, "- rows ", first as u64, "");
    put_number(rt, " ", count as u64, "\n");
}

fn show_tie(rt: &HostRuntime, tie: &Tie) {
    match tie {
        Tie::Target(column) => put_number(rt, "- target ", *column as u64, "\n"),
        Tie::Opposite(column) => put_number(rt, "- opposite ", *column as u64, "\n"),
        Tie::Source(column) => put_number(rt, "- source ", *column as u64, "\n"),
    }
}

/// Prints what the rows of sections are.
fn show_sections(rt: &HostRuntime, sections: &[Section]) {
    for section in sections {
        match section {
            Section::Claim(number) => put_number(rt, "- claim ", *number as u64, "\n"),
            Section::Spare(count) => put_number(rt, "- spare ", *count as u64, "\n"),
            Section::Rows { first, count } => show_rows(rt, *first, *count),
            Section::Tie(tie) => show_tie(rt, tie),
        }
    }
}

/// Prints a step: its sources and target, and whether it is a call that returns; where its columns stand; and its sections.
fn show_step(rt: &HostRuntime, step: &Step) {
    show_positions(rt, "from", &step.sources);
    put_number(rt, " to ", step.target as u64, " returns ");
    put(rt, if step.returns { "true\n" } else { "false\n" });
    put_number(rt, "at ", step.columns.at as u64, "");
    put_number(rt, " first ", step.columns.first as u64, " ");
    show_numbers(rt, "made", &step.columns.made);
    show_sections(rt, &step.sections);
}

/// Prints the steps, one after another.
fn show_each(rt: &HostRuntime, made: &[Step]) {
    for step in made {
        show_step(rt, step);
    }
}

/// Prints the steps of the word, where the tests tell which calls return.
fn show_with(rt: &HostRuntime, graph: &Icfg, path: &PathSystem, returned: &[bool])
    requires path { IsPathOf graph.now path.now }
    requires returned { returned.now ≡ return_tests path.now.word }
{
    match steps(rt.alloc(), graph, path, returned) {
        Ok(made) => show_each(rt, &made),
        Err(_) => put_nothing(rt),
    }
}

/// Prints the steps of the word.
pub(crate) fn show_steps(rt: &HostRuntime, graph: &Icfg, path: &PathSystem)
    requires { IsPathOf graph.now path.now }
{
    match returns(rt.alloc(), path.word().letters()) {
        Ok(returned) => show_with(rt, graph, path, &returned),
        Err(_) => put_nothing(rt),
    }
}
