//! Reading the lines of an annotation behind its header.

ghost use Rattle.std.specs.Prelude.{◌+◌, ◌≤◌, ◌^◌, length};
ghost use Rattle.outer_io.specs.Lines.{lines_of};
ghost use Rattle.proof_form.specs.Standing.{no_content};
ghost use Rattle.proof_form.specs.TextReading.{ReadsFrom};

use crate::drafts::Draft;
use crate::fault::ProofFault;
use crate::reading::more_follow;
use crate::refusal::Refusal;
use crate::text_lines::first_line;
use std::alloc::Global;

/// Reads the lines of an annotation, of which the first has that number.
pub(crate) fn items_of(alloc: Global, text: &[u8], first: u64) -> Result<Draft, ProofFault>
    requires { first + length text.now ≤ 2 ^ 63 + 3 }
    ensures { ReadsFrom first no_content (lines_of text.now) result }
{
    let mut draft = Draft::new(alloc);
    let mut rest = text;
    let mut line = first;
    while let Some((bytes, behind)) = first_line(rest) {
        if bytes == b"end".as_slice() {
            if more_follow(behind) {
                return Err(ProofFault::Syntax { line: line + 1 });
            }
            return Ok(draft);
        }
        match draft.add(alloc, bytes) {
            Ok(()) => {}
            Err(Refusal::Form) => return Err(ProofFault::Syntax { line }),
            Err(Refusal::Memory) => return Err(ProofFault::Memory),
        }
        rest = behind;
        line += 1;
    }
    Err(ProofFault::Syntax { line })
}
