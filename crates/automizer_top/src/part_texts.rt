//! Texts that speak of parts, written and taken apart.

ghost use Rattle.std.specs.Prelude.{◌≡◌, ◌≢◌, ◌≤◌, ◌<◌, ◌++◌, ◌∷◌, [], length, map, take, drop, Some, IfOk, OnOk, option_map, vec_len};
ghost use Rattle.outer_io.specs.Lines.{lines_of};
ghost use Rattle.automizer_top.specs.PartTexts as spec;

use boogie_tree::Text;
use std::alloc::{AllocError, Global};

/// The line behind which the verdicts on so many parts stand.
pub(crate) fn modular_line(alloc: Global, count: usize) -> Result<Vec<u8>, AllocError>
    ensures { IfOk result (λ line. line.items ≡ spec.modular_line count) }
{
    let line = format!(in alloc; "modular {count}\n")?;
    Ok(line.into_bytes())
}

/// Adds the line of the part of that name, and its text.
pub(crate) fn add_part(text: &mut Vec<u8>, name: &Text, own: &[u8]) -> Result<(), AllocError>
    ensures { OnOk result (text.new.items ≡ text.old.items ++ (spec.part_line name.now ++ own.now)) }
{
    text.extend_from_slice(b"part ")?;
    text.extend_from_slice(name.bytes())?;
    text.extend_from_slice(b"\n")?;
    text.extend_from_slice(own)
}

/// What stands behind these bytes, where the text begins with them.
pub(crate) fn behind<'a>(text: &'a [u8], bytes: &[u8]) -> Option<&'a [u8]>
    ensures { option_map (λ rest. rest.now) result ≡ spec.text_behind bytes.now text.now }
{
    text.strip_prefix(bytes)
}

/// What stands behind the line of the part of that name, where the text begins with it.
pub(crate) fn behind_part_line<'a>(text: &'a [u8], name: &Text) -> Option<&'a [u8]>
    ensures { option_map (λ rest. rest.now) result ≡ spec.text_behind (spec.part_line name.now) text.now }
{
    let rest = behind(text, b"part ")?;
    let rest = behind(rest, name.bytes())?;
    behind(rest, b"\n")
}

/// How many bytes the first line of a text has, with its newline, if there is one.
fn first_line(text: &[u8]) -> usize
    requires { text.now ≢ [] }
    ensures line { lines_of text.now ≡ take result text.now ∷ lines_of (drop result text.now) }
    ensures within { result ≤ length text.now }
    ensures some { 0 < result }
{
    for (place, byte) in text.iter().enumerate() {
        if *byte == b'\n' {
            return place + 1;
        }
    }
    text.len()
}

/// The annotation at the front of a text, how many lines it has, and what is left behind it.
#[derive(Clone, Copy)]
pub(crate) struct Front<'a> {
    pub own: &'a [u8],
    pub lines: usize,
    pub rest: &'a [u8],
}

/// Takes the annotation at the front of a text off: up to the first line `end`, that line included; the whole text, where no line is that.
pub(crate) fn front_of(text: &[u8]) -> Front<'_>
    ensures own { result.own.now ≡ spec.front_text text.now }
    ensures lines { result.lines ≡ length (spec.front_lines text.now) }
    ensures rest { result.rest.now ≡ spec.rest_text text.now }
    ensures few { result.lines ≤ length result.own.now }
{
    let mut at = 0;
    let mut lines = 0;
    while at < text.len() {
        let next = at + first_line(&text[at..]);
        lines += 1;
        if &text[at..next] == b"end\n".as_slice() {
            return Front {
                own: &text[..next],
                lines,
                rest: &text[next..],
            };
        }
        at = next;
    }
    Front {
        own: &text[..at],
        lines,
        rest: &text[at..],
    }
}
