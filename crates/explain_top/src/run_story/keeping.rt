//! The lines of a story: all, or the first and the last.

ghost use Rattle.std.specs.Prelude.{◌≡◌, ◌++◌, ◌∷◌, [], ℕ, List, length, map, drop, nat_le, IfOk, OnOk, if◌then◌else◌};
ghost use Rattle.std.specs.List.{concat};
ghost use Rattle.explain_top.specs.RunStory.Texts.{shortened, most};
ghost use Rattle.explain_top.specs.RunStory.Lines.{Keeps, gap};

use boogie_tree::printing::{append, literal};
use std::alloc::{AllocError, Global};
use std::collections::VecDeque;

/// How many lines stand at the beginning and at the end of a long story.
const MOST: u64 = 100;

/// The lines that are kept of a story that is being told.
#[derive(Drop)]
pub struct Lines {
    pub(crate) all: bool,
    /// Those at the beginning, or all, as one text.
    pub(crate) first: Vec<u8>,
    /// The last of the others.
    pub(crate) last: VecDeque<Vec<u8>>,
}

/// No lines yet.
pub fn no_lines(alloc: Global, all: bool) -> Lines
    ensures none { Keeps [] result }
    ensures all { result.all ≡ all }
{
    Lines {
        all,
        first: Vec::new(alloc),
        last: VecDeque::new(alloc),
    }
}

/// Puts a line behind those at the beginning.
fn keep_first(lines: &mut Lines, line: &[u8]) -> Result<(), AllocError>
    ensures first { OnOk result (lines.new.first.items ≡ lines.old.first.items ++ line.now) }
    ensures last { lines.new.last.items ≡ lines.old.last.items }
    ensures all { lines.new.all ≡ lines.old.all }
{
    append(&mut lines.first, line)
}

/// Forgets the first of the last lines, where there are enough.
fn make_room(last: &mut VecDeque<Vec<u8>>)
    ensures { map (λ l. l.items) last.new.items ≡ (if nat_le most (length last.old.items) then drop 1 (map (λ l. l.items) last.old.items) else map (λ l. l.items) last.old.items) }
{
    if last.len() as u64 >= MOST {
        let _ = last.pop_front();
    }
}

/// Puts a line behind the last ones.
fn keep_last(lines: &mut Lines, line: Vec<u8>) -> Result<(), AllocError>
    ensures last { OnOk result (map (λ l. l.items) lines.new.last.items ≡ (if nat_le most (length lines.old.last.items) then drop 1 (map (λ l. l.items) lines.old.last.items) else map (λ l. l.items) lines.old.last.items) ++ line.items ∷ []) }
    ensures first { lines.new.first.items ≡ lines.old.first.items }
    ensures all { lines.new.all ≡ lines.old.all }
{
    make_room(&mut lines.last);
    lines.last.push_back(line)?;
    Ok(())
}

/// Keeps one line more, before which so many stand.
pub fn keep(lines: &mut Lines, before: u64, line: Vec<u8>) -> Result<(), AllocError>
    ensures kept { OnOk result ((ls : List (List ℕ)) → length ls ≡ before → Keeps ls lines.old → Keeps (ls ++ line.items ∷ []) lines.new) }
    ensures all { lines.new.all ≡ lines.old.all }
{
    if lines.all {
        return keep_first(lines, &line);
    }
    if before < MOST {
        return keep_first(lines, &line);
    }
    keep_last(lines, line)
}

/// How many lines are left out, where some are.
fn left_out(out: &mut Vec<u8>, all: bool, count: u64) -> Result<(), AllocError>
    ensures { OnOk result (out.new.items ≡ out.old.items ++ gap all count) }
{
    if all || count <= 2 * MOST {
        return Ok(());
    }
    append(out, b".. ")?;
    literal(out, i128::from(count - 2 * MOST))?;
    append(out, b" steps ..\n")
}

/// Texts behind each other.
fn joined(out: &mut Vec<u8>, texts: &VecDeque<Vec<u8>>) -> Result<(), AllocError>
    ensures { OnOk result (out.new.items ≡ out.old.items ++ concat (map (λ l. l.items) texts.now.items)) }
{
    for i in 0..texts.len() {
        append(out, &texts[i])?;
    }
    Ok(())
}

/// The text of the lines, of which there are so many.
#[tactic(auto, using(crate::proofs::RunStory::KeepingLemmas::finished))]
pub fn finish(lines: Lines, count: u64) -> Result<Vec<u8>, AllocError>
    ensures { IfOk result (λ text. (ls : List (List ℕ)) → length ls ≡ count → Keeps ls lines → text.items ≡ concat (shortened lines.all ls)) }
{
    let Lines {
        all,
        mut first,
        last,
    } = lines;
    left_out(&mut first, all, count)?;
    joined(&mut first, &last)?;
    Ok(first)
}
