//! Tokens and programs of texts.

ghost use Rattle.std.specs.Prelude.{◌+◌, ◌<◌, ◌^◌, length, IfSome};
ghost use Rattle.boogie_tree.specs.View.{program as tree};
ghost use Rattle.boogie_parse.specs.Spelling.PrintedTokens.{IsSpellableProgram};

use crate::texts::{bytes_of, put, put_bytes, put_no_memory, put_number};
use boogie_parse::{Fault, Token, TokenKind, lex, parse};
use boogie_tree::Program;
use std::alloc::AllocError;

/// The most bytes of a text.
const MOST_BYTES: usize = 1_000_000;

/// A token behind a letter for its kind, and its place.
fn show_token(rt: &HostRuntime, token: &Token) {
    let kind = match token.kind {
        TokenKind::Word => " w",
        TokenKind::Literal => " l",
        TokenKind::Mark => " m",
    };
    put(rt, kind);
    put_bytes(rt, token.text.bytes());
    put_number(rt, " ", u64::from(token.span.line), ":");
    put_number(rt, "", u64::from(token.span.col), "");
}

fn show_all(rt: &HostRuntime, tokens: &[Token]) {
    for token in tokens {
        show_token(rt, token);
    }
    put(rt, "\n");
}

fn show_fault(rt: &HostRuntime, fault: &Fault) {
    let _ = println!(rt; "{fault:?}");
}

fn show_lexed(rt: &HostRuntime, bytes: &[u8]) {
    if bytes.len() > MOST_BYTES {
        return put(rt, "too long\n");
    }
    match lex(rt.alloc(), bytes) {
        Ok(tokens) => show_all(rt, &tokens),
        Err(fault) => show_fault(rt, &fault),
    }
}

/// The tokens of a text on one line, or its fault.
pub(crate) fn show_tokens(rt: &HostRuntime, text: &str) {
    match bytes_of(rt.alloc(), text) {
        Ok(bytes) => show_lexed(rt, &bytes),
        Err(_) => put_no_memory(rt),
    }
}

/// The program of a text; where it is none, its fault is printed.
pub(crate) fn parsed(rt: &HostRuntime, bytes: &[u8]) -> Option<Program>
    ensures { IfSome result (λ p. IsSpellableProgram (tree p)) }
{
    if bytes.len() > MOST_BYTES {
        put(rt, "too long\n");
        return None;
    }
    match parse(rt.alloc(), bytes) {
        Ok(program) => Some(program),
        Err(fault) => {
            show_fault(rt, &fault);
            None
        }
    }
}

/// The last word of a text, and whether the text is a program.
fn show_prefix(rt: &HostRuntime, word: &str, bytes: &[u8]) {
    put(rt, word);
    put(rt, " ");
    if parsed(rt, bytes).is_some() {
        put(rt, "program\n");
    }
}

/// For each word of a text whether the text up to its end is a program.
fn show_growing(rt: &HostRuntime, text: &mut String, words: &str) -> Result<(), AllocError> {
    for word in words.split_whitespace() {
        text.push_str(word)?;
        show_prefix(rt, word, text.as_bytes());
        text.push(' ')?;
    }
    Ok(())
}

/// For each word of a text whether the text up to its end is a program.
pub(crate) fn show_prefixes(rt: &HostRuntime, words: &str) {
    let mut text = String::new(rt.alloc());
    if show_growing(rt, &mut text, words).is_err() {
        put_no_memory(rt);
    }
}
