//! Names: those of procedures and of the columns of a frame differ, and are spelled as names. Those of the constants and
//! globals, which all frames share, are compared once.

ghost use Rattle.std.specs.Prelude.{◌≡◌, ◌↔◌, true, IsTrue, IfOk, map};
ghost use Rattle.std.specs.List.{AllByRecursion};
ghost use Rattle.boogie_tree.specs.Names.{is_spelled};
ghost use Rattle.nwa_base.specs.Members.{Member};
ghost use Rattle.letter_acts.specs.Acts.{plain_frames};
ghost use Rattle.letter_acts.specs.Invariant.{AreDistinct, AreFrames, HasNames, AreNamed, names_where};
ghost use Rattle.letter_acts.specs.Checks.{is_named_by, HasOwnNames};
ghost use Rattle.letter_acts.specs.Parts.{graph_of};

use crate::checks::columns::{is_global_column, is_local_column};
use crate::checks::distinct::{slices_differ, texts_differ};
use crate::frames::Frame;
use crate::parts::Parts;
use boogie_tree::names::is_spelled;
use boogie_tree::{Column, Text, VarInfo};
use std::alloc::{AllocError, Global};

/// Whether the column is one of the constants and globals, or one of the locals.
fn is_named_by(global: bool, column: &(Column, VarInfo)) -> bool
    ensures { result ≡ is_named_by global column.now }
{
    if global {
        is_global_column(column.0)
    } else {
        is_local_column(column.0)
    }
}

/// Whether the column is of the kind and has the name.
fn is_named(global: bool, column: &(Column, VarInfo), name: &Text) -> bool
    ensures { IsTrue result ↔ ((is_named_by global column.now ≡ true) × (column.now.1.name ≡ name.now)) }
{
    is_named_by(global, column) && column.1.name.bytes() == name.bytes()
}

/// Whether a column of the kind has the name.
fn has_name(global: bool, frame: &[(Column, VarInfo)], name: &Text) -> bool
    ensures { IsTrue result ↔ Member (names_where (is_named_by global) frame.now) name.now }
{
    for i in 0..frame.len() {
        if is_named(global, &frame[i], name) {
            return true;
        }
    }
    false
}

/// Whether the column is of the kind and one of those after it has its name.
fn is_repeated(global: bool, column: &(Column, VarInfo), rest: &[(Column, VarInfo)]) -> bool
    ensures { IsTrue result ↔ ((is_named_by global column.now ≡ true) × Member (names_where (is_named_by global) rest.now) column.now.1.name) }
{
    is_named_by(global, column) && has_name(global, rest, &column.1.name)
}

/// Whether the names of the columns of the kind differ, compared pair by pair.
fn name_pairs_differ(global: bool, frame: &[(Column, VarInfo)]) -> bool
    ensures { IsTrue result ↔ AreDistinct (names_where (is_named_by global) frame.now) }
{
    for i in 0..frame.len() {
        if is_repeated(global, &frame[i], &frame[i + 1..]) {
            return false;
        }
    }
    true
}

/// The names of the columns of the kind.
fn names_of(
    alloc: Global,
    global: bool,
    frame: &[(Column, VarInfo)],
) -> Result<Vec<&[u8]>, AllocError>
    ensures { IfOk result (λ names. map (λ b. b.now) names.items ≡ names_where (is_named_by global) frame.now) }
{
    let mut names = Vec::new(alloc);
    for column in frame {
        if is_named_by(global, column) {
            names.push(column.1.name.bytes())?;
        }
    }
    Ok(names)
}

/// Whether the names of the columns of the kind differ, as a map of them finds.
fn mapped_names_differ(
    alloc: Global,
    global: bool,
    frame: &[(Column, VarInfo)],
) -> Result<bool, AllocError>
    ensures { IfOk result (λ differ. IsTrue differ ↔ AreDistinct (names_where (is_named_by global) frame.now)) }
{
    let names = names_of(alloc, global, frame)?;
    slices_differ(alloc, &names)
}

/// Whether the names of the columns of the kind differ.
fn names_differ(alloc: Global, global: bool, frame: &[(Column, VarInfo)]) -> bool
    ensures { IsTrue result ↔ AreDistinct (names_where (is_named_by global) frame.now) }
{
    match mapped_names_differ(alloc, global, frame) {
        Ok(differ) => differ,
        Err(AllocError) => name_pairs_differ(global, frame),
    }
}

fn columns_are_spelled(frame: &[(Column, VarInfo)]) -> bool
    ensures { IsTrue result ↔ AllByRecursion (λ c. IsTrue (is_spelled c.1.name)) frame.now }
{
    frame.iter().all(|column| is_spelled(column.1.name.bytes()))
}

/// Whether the names of the locals differ, and each column's name is spelled as a name.
fn has_own_names(alloc: Global, frame: &[(Column, VarInfo)]) -> bool
    ensures { IsTrue result ↔ HasOwnNames frame.now }
{
    names_differ(alloc, false, frame) && columns_are_spelled(frame)
}

fn have_own_names(alloc: Global, frames: &[Frame]) -> bool
    ensures { IsTrue result ↔ AllByRecursion HasOwnNames (plain_frames frames.now) }
{
    frames
        .iter()
        .all(|frame| has_own_names(alloc, frame.columns.as_slice()))
}

/// Whether the names of the columns of each frame differ as they are to, and are spelled as names.
fn have_names(alloc: Global, frames: &[Frame]) -> bool
    requires { AreFrames (plain_frames frames.now) }
    ensures { IsTrue result ↔ AllByRecursion HasNames (plain_frames frames.now) }
{
    match frames.first() {
        None => true,
        Some(first) => {
            names_differ(alloc, true, first.columns.as_slice()) && have_own_names(alloc, frames)
        }
    }
}

fn are_spelled(names: &[Text]) -> bool
    ensures { IsTrue result ↔ AllByRecursion (λ n. IsTrue (is_spelled n)) names.now }
{
    names.iter().all(|name| is_spelled(name.bytes()))
}

pub(super) fn are_named(parts: &Parts) -> bool
    requires { AreFrames (plain_frames parts.now.frames.items) }
    ensures { IsTrue result ↔ AreNamed (graph_of parts.now) }
{
    let alloc = *parts.names.allocator();
    texts_differ(alloc, parts.names.as_slice())
        && are_spelled(parts.names.as_slice())
        && have_names(alloc, parts.frames.as_slice())
}
