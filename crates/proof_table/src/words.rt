//! Words of graphs, and their rows.

ghost use Rattle.std.specs.Prelude.{IfSome};
ghost use Rattle.path_rows.specs.Paths.{IsPathOf};

use crate::rows::{put_number, show_numbers, show_row};
use letter_acts::{Act, Icfg};
use nwa_base::{Kind, Letter, Word, accepts, word};
use path_rows::{PathSystem, rows_of};
use std::alloc::{AllocError, Global};
use table_reading::number;

/// The kind of a letter that does this, and the call letter that it names.
fn kind_of(act: &Act) -> (Kind, u32) {
    match act {
        Act::Inside { .. } => (Kind::Inside, 0),
        Act::Call { .. } => (Kind::Call, 0),
        Act::Back { call, .. } => (Kind::Back, *call),
    }
}

/// The letter of that number; an inside letter where there is none.
pub(crate) fn letter(acts: &[Act], id: u32) -> Letter {
    let (kind, call) = match acts.get(id as usize) {
        Some(act) => kind_of(act),
        None => (Kind::Inside, 0),
    };
    Letter { id, kind, call }
}

fn push_letters(letters: &mut Vec<Letter>, acts: &[Act], text: &str) -> Result<(), AllocError> {
    for said in text.split_whitespace() {
        letters.push(letter(acts, number(said)))?;
    }
    Ok(())
}

/// The letters of these numbers, with blanks between them.
fn letters(alloc: Global, acts: &[Act], text: &str) -> Result<Vec<Letter>, AllocError> {
    let mut letters = Vec::new(alloc);
    push_letters(&mut letters, acts, text)?;
    Ok(letters)
}

/// The word of the letters of these numbers.
pub(crate) fn word_of(alloc: Global, acts: &[Act], text: &str) -> Option<Word> {
    word(letters(alloc, acts, text).ok()?)
}

/// The rows of a word, which the graph must accept.
fn accepted_path(alloc: Global, graph: &Icfg, word: &Word) -> Option<PathSystem>
    ensures { IfSome result (IsPathOf graph.now) }
{
    if !accepts(alloc, graph.nwa(), word).unwrap_or(false) {
        return None;
    }
    match rows_of(alloc, graph, word) {
        Ok(path) => Some(path),
        Err(_) => None,
    }
}

/// The rows of the word of these letters.
pub(crate) fn path_of(alloc: Global, graph: &Icfg, text: &str) -> Option<PathSystem>
    ensures { IfSome result (IsPathOf graph.now) }
{
    match word_of(alloc, graph.acts(), text) {
        Some(word) => accepted_path(alloc, graph, &word),
        None => None,
    }
}

/// Prints a line for each row, behind the number of the letter that made it; the letters that made the columns; the versions at each
/// position.
pub(crate) fn show_path(rt: &HostRuntime, path: &PathSystem) {
    for (row, at) in path.system().rows.iter().zip(path.row_at()) {
        put_number(rt, "", u64::from(*at), ": ");
        show_row(rt, row);
    }
    show_numbers(rt, "columns", path.column_at());
    for versions in path.states() {
        show_numbers(rt, "at", versions);
    }
}
