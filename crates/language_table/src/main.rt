//! Reads texts from standard input, and prints what the crates of the language answer to questions about them.
//!
//! A line that begins with `#` says what the questions behind it show, and is printed again. A line that begins with `?` is printed again,
//! too, and asks a question about the text in the lines before it, of which there may be several. Before the question may stand `each`, and
//! then each line of the text is a text of its own, which is printed behind `>`; or a number and `times`, and then the second, fourth .. of
//! the parts of the text between `^` are repeated so many times.
#![tactic(auto)]

mod formulas;
mod parsing;
mod printing;
mod resolving;
mod rules;
mod runs;
mod texts;
mod walks;

use crate::formulas::{show_form, show_type};
use crate::parsing::{show_prefixes, show_tokens};
use crate::printing::{
    show_branches, show_end, show_implementation, show_postfix, show_program, show_text,
};
use crate::resolving::{show_resolved, show_typed};
use crate::rules::{show_parts, show_rules};
use crate::runs::show_run;
use crate::texts::{put, put_no_memory, repeated};
use crate::walks::show_walk;
use std::alloc::AllocError;
use std::io::{self, Read};
use table_reading::{first_word, number, push_line};

fn main(rt: HostRuntime) -> io::Result<()> {
    let mut input = Vec::new(rt.alloc());
    rt.stdin().read_to_end(&mut input)?;
    show_cases(&rt, str::from_utf8(&input).unwrap_or("?"));
    Ok(())
}

/// The text that is asked about.
#[derive(Drop)]
struct Case {
    text: String,
    /// Whether it was asked about, so that another line begins another text.
    asked: bool,
}

fn show_cases(rt: &HostRuntime, lines: &str) {
    let mut case = Case {
        text: String::new(rt.alloc()),
        asked: true,
    };
    for line in lines.lines() {
        take_line(rt, &mut case, line);
    }
}

fn show_line(rt: &HostRuntime, line: &str) {
    put(rt, line);
    put(rt, "\n");
}

/// Prints what a case shows, answers a question about a text, or puts a line behind the text.
fn take_line(rt: &HostRuntime, case: &mut Case, line: &str) {
    if line.starts_with('#') {
        case.asked = true;
        show_line(rt, line);
    } else if let Some(question) = line.strip_prefix("? ") {
        case.asked = true;
        show_line(rt, line);
        answer(rt, question, case.text.strip_suffix('\n').unwrap_or(""));
    } else if put_line(case, line).is_err() {
        put_no_memory(rt);
    }
}

fn put_line(case: &mut Case, line: &str) -> Result<(), AllocError> {
    if case.asked {
        case.text.clear();
        case.asked = false;
    }
    push_line(&mut case.text, line)
}

fn answer(rt: &HostRuntime, question: &str, text: &str) {
    if let Some(each) = question.strip_prefix("each ") {
        answer_each(rt, each, text);
    } else if let Some((times, asked)) = question.split_once(" times ") {
        answer_repeated(rt, times, asked, text);
    } else {
        answer_one(rt, question, text);
    }
}

fn answer_each(rt: &HostRuntime, question: &str, texts: &str) {
    for text in texts.lines() {
        put(rt, "> ");
        show_line(rt, text);
        answer_one(rt, question, text);
    }
}

fn answer_repeated(rt: &HostRuntime, times: &str, question: &str, parts: &str) {
    match repeated(rt.alloc(), parts, number(times)) {
        Ok(text) => answer_one(rt, question, &text),
        Err(_) => put_no_memory(rt),
    }
}

fn answer_one(rt: &HostRuntime, question: &str, text: &str) {
    let (asked, rest) = first_word(question);
    match asked {
        "tokens" => show_tokens(rt, text),
        "program" => show_program(rt, text),
        "end" => show_end(rt, text),
        "prefixes" => show_prefixes(rt, text),
        "implementation" => show_implementation(rt, rest, text),
        "branches" => show_branches(rt, rest, text),
        "postfix" => show_postfix(rt, text),
        "text" => show_text(rt, text),
        _ => answer_typed(rt, asked, rest, text),
    }
}

/// Answers a question about what the names of a text mean.
fn answer_typed(rt: &HostRuntime, asked: &str, rest: &str, text: &str) {
    match asked {
        "type" => show_type(rt, rest, text),
        "form" => show_form(rt, text),
        "rules" => show_rules(rt, text),
        "parts" => show_parts(rt, text),
        "typed" => show_typed(rt, rest, text),
        "resolved" => show_resolved(rt, rest, text),
        "walk" => show_walk(rt, rest, text),
        _ => show_run(rt, rest, text),
    }
}
