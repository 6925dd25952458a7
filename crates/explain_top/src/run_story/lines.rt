//! A line of a story, to which notes are added.

ghost use Rattle.std.specs.Prelude.{◌≡◌, ◌++◌, ◌∷◌, [], true, OnOk};
ghost use Rattle.explain_top.specs.RunStory.Lines.{Adds, separator};

use boogie_tree::printing::append;
use std::alloc::AllocError;

/// A line without its end, and whether notes stand behind it.
#[derive(Drop)]
pub(crate) struct Line {
    pub(crate) text: Vec<u8>,
    pub(crate) noted: bool,
}

/// Puts what stands before the next note.
pub(crate) fn next_note(line: &mut Line) -> Result<(), AllocError>
    ensures text { OnOk result (line.new.text.items ≡ line.old.text.items ++ separator line.old.noted) }
    ensures noted { OnOk result (line.new.noted ≡ true) }
{
    append(&mut line.text, if line.noted { b", " } else { b"  // " })?;
    line.noted = true;
    Ok(())
}

/// Adds a note of these bytes.
pub(crate) fn add(line: &mut Line, note: &[u8]) -> Result<(), AllocError>
    ensures { OnOk result (Adds line.old (note.now ∷ []) line.new) }
{
    next_note(line)?;
    append(&mut line.text, note)
}
