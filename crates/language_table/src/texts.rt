//! The notation of texts, and how lines are printed. What cannot be read counts as 0, and what cannot be printed is left out: the answers are compared.

use std::alloc::{AllocError, Global};
use table_reading::parted;

/// Prints a text as it is.
pub(crate) fn put(rt: &HostRuntime, text: &str) {
    let _ = print!(rt; "{text}");
}

/// A number between texts.
pub(crate) fn put_number(rt: &HostRuntime, before: &str, number: u64, behind: &str) {
    let _ = print!(rt; "{before}{number}{behind}");
}

/// Bytes that are a text.
pub(crate) fn put_bytes(rt: &HostRuntime, bytes: &[u8]) {
    put(rt, str::from_utf8(bytes).unwrap_or("?"));
}

/// What is answered where memory ran out.
pub(crate) fn put_no_memory(rt: &HostRuntime) {
    put(rt, "no memory\n");
}

fn push_copies(text: &mut String, part: &str, times: u32) -> Result<(), AllocError> {
    for _time in 0..times {
        text.push_str(part)?;
    }
    Ok(())
}

fn push_parts(text: &mut String, parts: &str, times: u32) -> Result<(), AllocError> {
    for (place, part) in parts.split('^').enumerate() {
        push_copies(text, part, if place % 2 == 1 { times } else { 1 })?;
    }
    Ok(())
}

/// The parts between `^`, of which each second one is repeated.
pub(crate) fn repeated(alloc: Global, parts: &str, times: u32) -> Result<String, AllocError> {
    let mut text = String::new(alloc);
    push_parts(&mut text, parts, times)?;
    Ok(text)
}

/// A byte in two hexadecimal digits, and what stands behind them.
fn push_escaped(bytes: &mut Vec<u8>, part: &str) -> Result<(), AllocError> {
    let (digits, rest) = part.split_at_checked(2).unwrap_or(("0", part));
    bytes.push(u8::from_str_radix(digits, 16).unwrap_or(0))?;
    bytes.extend_from_slice(rest.as_bytes())
}

fn push_bytes(bytes: &mut Vec<u8>, text: &str) -> Result<(), AllocError> {
    let (first, rest) = parted(text, "~");
    bytes.extend_from_slice(first.as_bytes())?;
    for part in rest.split('~') {
        if !part.is_empty() {
            push_escaped(bytes, part)?;
        }
    }
    Ok(())
}

/// The bytes of a text, in which two hexadecimal digits behind `~` are a byte.
pub(crate) fn bytes_of(alloc: Global, text: &str) -> Result<Vec<u8>, AllocError> {
    let mut bytes = Vec::new(alloc);
    push_bytes(&mut bytes, text)?;
    Ok(bytes)
}
