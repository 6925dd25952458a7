//! Texts that are said in a line.

use crate::rows::put_line;
use std::alloc::{AllocError, Global};
use table_reading::{number, parted};

/// Puts so many copies of a part, `3:part`.
fn push_times(text: &mut String, said: &str) -> Result<(), AllocError> {
    let (times, part) = parted(said, ":");
    for _time in 0..number(times) {
        text.push_str(part)?;
    }
    Ok(())
}

/// Puts a text behind another, in which each second part between `^` stands as often as it says.
pub(crate) fn push_repeated(text: &mut String, said: &str) -> Result<(), AllocError> {
    for (place, part) in said.split('^').enumerate() {
        if place % 2 == 0 {
            text.push_str(part)?;
        } else {
            push_times(text, part)?;
        }
    }
    Ok(())
}

/// The text between quotes, in which `$` ends a line and `%` is a carriage return.
fn unquoted(alloc: Global, said: &str) -> Result<String, AllocError> {
    let ended = said.replace(alloc, '$', "\n")?;
    ended.replace(alloc, '%', "\r")
}

/// The text that is said between quotes, or else the text that is given.
pub(crate) fn text_of(alloc: Global, text: &str, said: &str) -> Result<String, AllocError> {
    match said.strip_prefix('"') {
        Some(rest) => unquoted(alloc, rest.strip_suffix('"').unwrap_or(rest)),
        None => String::from_str(alloc, text),
    }
}

/// Prints whether what was written is what was read.
pub(crate) fn show_same(rt: &HostRuntime, written: &[u8], read: &[u8]) {
    let answer = if written == read {
        "written back"
    } else {
        "written otherwise"
    };
    put_line(rt, answer);
}
