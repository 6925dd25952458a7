//! Tells a trace in the words of the program's text.

ghost use Rattle.std.specs.Prelude.{◌≡◌, ◌++◌, ◌∷◌, ◌+◌, ◌-◌, ◌<◌, ◌≤◌, ◌^◌, [], Some, List, ℕ, length, codes, slice_get, IfOk, IfErr, OnOk, if◌then◌else◌};
ghost use Rattle.std.specs.List.{concat};
ghost use Rattle.std.specs.Option.{option_map, option_to_list};
ghost use Rattle.boogie_tree.specs.Tree.{Declaration};
ghost use Rattle.boogie_tree.specs.View as tree_view;
ghost use Rattle.typed_tree.specs.TypedTree.{TypedProgram};
ghost use Rattle.typed_tree.specs.TypingRules.TypedParts.{typed_program};
ghost use Rattle.letter_acts.specs.Acts.{letter_of};
ghost use Rattle.explain_top.specs.RunStory.Lines.{Keeps};
ghost use Rattle.explain_top.specs.RunStory.Tables.{IsTable};
ghost use Rattle.explain_top.specs.RunStory.Texts.{shortened};
ghost use Rattle.explain_top.specs.TraceStory.Ties.PlaceSites.{place_sites};
ghost use Rattle.explain_top.specs.TraceStory.TraceText.{plain};
ghost use Rattle.explain_top.specs.TraceStory.TraceStory as spec;
ghost use Rattle.explain_top.specs.TraceStory.TraceStory.{IsTraceStory, IsToldFault};

use crate::run_story::{Lines, Table, finish, item_line, keep, no_lines, table_of};
use crate::trace_story::sites::{Site, sites_of};
use crate::trace_story::traces::{ToldFault, Trace};
use boogie_tree::Program;
use letter_acts::{Act, Icfg};
use nwa_base::{Kind, Letter, run_of, word};
use race_core::Cause;
use std::alloc::{AllocError, Global};
use typed_tree::typing_rules::Typed;

/// Tells a trace of which nothing is known: a line for each place of the program that it goes through, and what to do about the cause. Of more than 200 lines
/// those in the middle are left out, unless all are wanted.
///
/// # Errors
///
/// `BadName` where a number is that of no letter; `BadStep` where the letters lead to no failure; `Memory` where memory ran out.
pub fn trace_story(
    alloc: Global,
    tree: &Program,
    program: &Typed,
    icfg: &Icfg,
    trace: &Trace,
    all: bool,
) -> Result<Vec<u8>, ToldFault>
    ensures told { IfOk result (λ text. IsTraceStory (typed_program program.now) (tree_view.program tree.now) icfg.now all (plain trace.now) text.items) }

    // it is refused where its letters do not exist, or lead to no failure
    ensures refused { IfErr result (IsToldFault icfg.now trace.now.letters.items) }
{
    let Some(letters) = letters_of(alloc, icfg, &trace.letters)? else {
        return Err(ToldFault::BadName);
    };
    let Some(word) = word(letters) else {
        return Err(ToldFault::BadStep);
    };
    let Some(places) = run_of(alloc, icfg.nwa(), &word)? else {
        return Err(ToldFault::BadStep);
    };
    Ok(told_letters(
        alloc,
        tree,
        program,
        &places,
        word.letters(),
        trace.cause,
        all,
    )?)
}

/// The letter of that number.
fn letter_at(icfg: &Icfg, number: u32) -> Option<Letter>
    ensures { result ≡ option_map (λ act. letter_of number act) (slice_get icfg.now.acts number) }
{
    let act = icfg.act(number)?;
    let (kind, call) = match act {
        Act::Inside { .. } => (Kind::Inside, 0),
        Act::Call { .. } => (Kind::Call, 0),
        Act::Back { call, .. } => (Kind::Back, *call),
    };
    Some(Letter {
        id: number,
        kind,
        call,
    })
}

/// The letters of these numbers, where each exists.
fn letters_of(
    alloc: Global,
    icfg: &Icfg,
    numbers: &[u32],
) -> Result<Option<Vec<Letter>>, AllocError>
    ensures { IfOk result (λ o. option_map (λ v. v.items) o ≡ spec.letters_of icfg.now numbers.now) }
{
    let mut letters = Vec::new(alloc);
    for number in numbers {
        let Some(letter) = letter_at(icfg, *number) else {
            return Ok(None);
        };
        letters.push(letter)?;
    }
    Ok(Some(letters))
}

/// How many calls are open behind a letter.
fn open_behind(kind: Kind, calls: usize) -> usize
    requires { calls + 1 < 2 ^ 64 }
    ensures { result ≡ spec.open_behind kind calls }
{
    match kind {
        Kind::Inside => calls,
        Kind::Call => calls + 1,
        Kind::Back => calls.saturating_sub(1),
    }
}

/// What is told behind the line of a letter, of which the last leads to a failure.
fn note_of(last: bool) -> Option<&'static [u8]>
    ensures { option_to_list (option_map (λ n. n.now) result) ≡ (if last then codes "fails" ∷ [] else []) }
{
    if last { Some(b"fails") } else { None }
}

/// Where the item stands at a place, which has this number: they count from 1.
fn site_at(sites: &[Site], place: u32) -> Option<Site>
    ensures { result ≡ slice_get sites.now (place - 1) }
{
    match sites.get(place.saturating_sub(1) as usize) {
        Some(found) => Some(*found),
        None => None,
    }
}

/// The line of the item at a place, where one stands there.
fn place_line(
    alloc: Global,
    table: &Table<'_>,
    sites: &[Site],
    place: u32,
    calls: usize,
    last: bool,
) -> Result<Option<Vec<u8>>, AllocError>
    ensures { IfOk result (λ o. (t : TypedProgram) (ds : List Declaration) → sites.now ≡ place_sites t → IsTable ds table.now →
        option_to_list (option_map (λ v. v.items) o) ≡ spec.line_of (spec.item_of t ds place) calls (if last then codes "fails" ∷ [] else [])) }
{
    if place == 0 {
        return Ok(None);
    }
    let Some((proc, at)) = site_at(sites, place) else {
        return Ok(None);
    };
    let line = item_line(alloc, table, proc, at, calls, note_of(last))?;
    Ok(Some(line))
}

/// Keeps a line more, where there is one, behind so many, and tells how many there are then.
fn keep_line(lines: &mut Lines, count: u64, line: Option<Vec<u8>>) -> Result<u64, AllocError>
    requires { count + 1 < 2 ^ 64 }
    ensures kept { IfOk result (λ n. (ls : List (List ℕ)) → length ls ≡ count → Keeps ls lines.old → Keeps (ls ++ option_to_list (option_map (λ v. v.items) line)) lines.new) }
    ensures count { IfOk result (λ n. n ≡ count + length (option_to_list (option_map (λ v. v.items) line))) }
    ensures all { lines.new.all ≡ lines.old.all }
{
    match line {
        Some(line) => {
            keep(lines, count, line)?;
            Ok(count + 1)
        }
        None => Ok(count),
    }
}

/// The place of that number.
fn place_in(places: &[u32], number: usize) -> u32
    requires { number < length places.now }
    ensures { slice_get places.now number ≡ Some result }
{
    places[number]
}

/// The letter of that number.
fn letter_in(letters: &[Letter], number: usize) -> Letter
    requires { number < length letters.now }
    ensures { slice_get letters.now number ≡ Some result }
{
    letters[number]
}

/// The lines of letters that lead along these places, and what to do about the cause.
fn told_letters(
    alloc: Global,
    tree: &Program,
    program: &Typed,
    places: &[u32],
    letters: &[Letter],
    cause: Cause,
    all: bool,
) -> Result<Vec<u8>, AllocError>
    requires { length letters.now ≤ length places.now }
    ensures { IfOk result (λ text. text.items ≡ concat (shortened all (spec.letter_lines (typed_program program.now) (tree_view.program tree.now) places.now letters.now 0)) ++ spec.advice cause) }
{
    let table = table_of(alloc, tree)?;
    let sites = sites_of(alloc, program)?;
    told_by(alloc, &table, &sites, places, letters, cause, all)
}

/// The same, by the program's items and by where they stand at its places.
fn told_by(
    alloc: Global,
    table: &Table<'_>,
    sites: &[Site],
    places: &[u32],
    letters: &[Letter],
    cause: Cause,
    all: bool,
) -> Result<Vec<u8>, AllocError>
    requires { length letters.now ≤ length places.now }
    ensures { IfOk result (λ text. (t : TypedProgram) (ds : List Declaration) → sites.now ≡ place_sites t → IsTable ds table.now →
        text.items ≡ concat (shortened all (spec.letter_lines t ds places.now letters.now 0)) ++ spec.advice cause) }
{
    let mut lines = no_lines(alloc, all);
    let count = keep_letters(alloc, table, sites, places, letters, &mut lines)?;
    let mut text = finish(lines, count)?;
    text.extend_from_slice(advice(cause))?;
    Ok(text)
}

/// Keeps the lines of letters that lead along these places, and tells how many they are.
fn keep_letters(
    alloc: Global,
    table: &Table<'_>,
    sites: &[Site],
    places: &[u32],
    letters: &[Letter],
    lines: &mut Lines,
) -> Result<u64, AllocError>
    requires long { length letters.now ≤ length places.now }
    requires none { Keeps [] lines.old }
    ensures { IfOk result (λ n. (t : TypedProgram) (ds : List Declaration) → sites.now ≡ place_sites t → IsTable ds table.now → (text : List ℕ) →
        ((ls : List (List ℕ)) → length ls ≡ n → Keeps ls lines.new → text ≡ concat (shortened lines.new.all ls)) →
        text ≡ concat (shortened lines.old.all (spec.letter_lines t ds places.now letters.now 0))) }
{
    let mut count: u64 = 0;
    let mut calls: usize = 0;
    for i in 0..letters.len() {
        let last = i + 1 == letters.len();
        let letter = letter_in(letters, i);
        let line = place_line(alloc, table, sites, place_in(places, i), calls, last)?;
        count = keep_line(lines, count, line)?;
        calls = open_behind(letter.kind, calls);
    }
    Ok(count)
}

/// What to do about a cause.
fn advice(cause: Cause) -> &'static [u8]
    ensures { result.now ≡ spec.advice cause }
{
    match cause {
        Cause::Rounds =>
            b"unknown rounds: give more rounds, or say by an invariant, an assert or an ensures what keeps this trace from its failure\n",
        Cause::Whole =>
            b"unknown whole: give more depth, or say by an assume or an assert what holds of the whole numbers here\n",
        Cause::Number =>
            b"unknown number: make the numbers of the program smaller, or cut a long chain of assignments by an assert\n",
        Cause::Product =>
            b"unknown product: say by an assume what is needed of the product, or put a literal in the place of a factor\n",
    }
}
