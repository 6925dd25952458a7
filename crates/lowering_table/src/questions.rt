//! What a line asks of the text that stands before it.

use crate::graphs::{show_acts, show_whole};
use crate::layouts::{show_frames, show_labels, show_layout};
use crate::lists::{Asked, show_asked};
use crate::parts::show_parts;
use crate::printing::{show_line, show_no_memory};
use crate::programs::resolved;
use crate::tables::{show_letter, show_table};
use icfg_lower::lower;
use std::alloc::{AllocError, Global};
use table_reading::parted;
use typed_tree::typing_rules::Typed;

/// What is asked.
#[derive(Clone, Copy)]
enum Question {
    /// The lists of a statement.
    Lists(Asked),
    /// Where labels lead.
    Labels,
    /// The numbers of places and the frames.
    Layout,
    Frames,
    /// The automaton of a program.
    Lowered,
    /// What the letters of that automaton do.
    Letters,
    /// Whether parts are those of a graph.
    Graph,
    /// The graph of parts.
    Copied,
    /// A letter.
    Letter,
    /// The letters of steps.
    Table,
}

fn asked_by(word: &str) -> Option<Question> {
    match word {
        "condition" => Some(Question::Lists(Asked::Condition)),
        "members" => Some(Question::Lists(Asked::Members)),
        "assignment" => Some(Question::Lists(Asked::Assignment)),
        "demands" => Some(Question::Lists(Asked::Demands)),
        "arguments" => Some(Question::Lists(Asked::Arguments)),
        "import" => Some(Question::Lists(Asked::Import)),
        "labels" => Some(Question::Labels),
        "layout" => Some(Question::Layout),
        "frames" => Some(Question::Frames),
        "lowered" => Some(Question::Lowered),
        "letters" => Some(Question::Letters),
        "graph" => Some(Question::Graph),
        "copied" => Some(Question::Copied),
        "letter" => Some(Question::Letter),
        "table" => Some(Question::Table),
        _ => None,
    }
}

fn fill(full: &mut Vec<u8>, text: &[u8], said: &str) -> Result<(), AllocError> {
    for byte in text {
        if *byte == b'@' {
            full.extend_from_slice(said.as_bytes())?;
        } else {
            full.push(*byte)?;
        }
    }
    Ok(())
}

/// The text, with what is said in place of each `@`.
fn filled(alloc: Global, text: &[u8], said: &str) -> Result<Vec<u8>, AllocError> {
    let mut full = Vec::new(alloc);
    fill(&mut full, text, said)?;
    Ok(full)
}

fn show_lowered(rt: &HostRuntime, program: &Typed) {
    match lower(rt.alloc(), program) {
        Ok(graph) => show_whole(rt, &graph),
        Err(_) => show_line(rt, "not lowered"),
    }
}

fn show_letters(rt: &HostRuntime, program: &Typed) {
    match lower(rt.alloc(), program) {
        Ok(graph) => show_acts(rt, graph.acts()),
        Err(_) => show_line(rt, "not lowered"),
    }
}

fn show_of_program(rt: &HostRuntime, program: &Typed, question: Question) {
    match question {
        Question::Lists(asked) => show_asked(rt, program, asked),
        Question::Labels => show_labels(rt, program),
        Question::Layout => show_layout(rt, program),
        Question::Frames => show_frames(rt, program),
        Question::Letters => show_letters(rt, program),
        _ => show_lowered(rt, program),
    }
}

fn show_of_text(rt: &HostRuntime, text: &[u8], question: Question) {
    if let Some(program) = &resolved(rt, text) {
        show_of_program(rt, program, question);
    }
}

fn show_of_filled(rt: &HostRuntime, text: &[u8], question: Question, said: &str) {
    match filled(rt.alloc(), text, said) {
        Ok(text) => show_of_text(rt, &text, question),
        Err(_) => show_no_memory(rt),
    }
}

fn answer(rt: &HostRuntime, text: &[u8], question: Question, said: &str) {
    match question {
        Question::Graph => show_parts(rt, text, said, false),
        Question::Copied => show_parts(rt, text, said, true),
        Question::Letter => show_letter(rt, said),
        Question::Table => show_table(rt, text),
        _ => show_of_filled(rt, text, question, said),
    }
}

/// Whether the line asks something. The line is printed, and the answer.
pub(crate) fn is_answered(rt: &HostRuntime, text: &[u8], line: &[u8]) -> bool {
    let line = str::from_utf8(line).unwrap_or("?");
    let (word, said) = parted(line, " ");
    match asked_by(word) {
        Some(question) => {
            show_line(rt, line);
            answer(rt, text, question, said);
            true
        }
        None => false,
    }
}
