//! Runs of the program.

use crate::answers::Outcome;
use crate::cases::{Case, Varied};
use crate::gates::Schedule;
use automizer_top::run;
use outer_io::{MemShelf, MemSink};
use std::alloc::{AllocError, Global};
use std::sync::Wait;
use std::thread::Threads;
use table_reading::first_word;

/// The most bytes that one call on the shelf or on the sink moves.
const PIECE: usize = 7;

/// Prints a text. What cannot be printed is left out: the answers are compared.
fn put(rt: &HostRuntime, text: &str) {
    let _ = print!(rt; "{text}");
}

/// Prints that memory ran out.
fn put_no_memory(rt: &HostRuntime) {
    put(rt, "no memory\n");
}

fn push_words(alloc: Global, words: &mut Vec<String>, line: &str) -> Result<(), AllocError> {
    for word in line.split_whitespace() {
        let word = if word == "''" { "" } else { word };
        words.push(String::from_str(alloc, word)?)?;
    }
    Ok(())
}

/// The words of a line, of which `''` is the empty one.
fn words_of(alloc: Global, line: &str) -> Result<Vec<String>, AllocError> {
    let mut words = Vec::new(alloc);
    push_words(alloc, &mut words, line)?;
    Ok(words)
}

/// The first bytes of a text, or all of it where it has fewer.
fn front(text: &[u8], length: usize) -> &[u8] {
    text.get(..length).unwrap_or(text)
}

/// Puts a text behind bytes, with other lines in place of each of its lines that is this one.
fn push_changed(bytes: &mut Vec<u8>, text: &[u8], old: &str, new: &str) -> Result<(), AllocError> {
    for line in text.split_inclusive(|byte| *byte == b'\n') {
        let is_old = line.strip_suffix(b"\n") == Some(old.as_bytes());
        bytes.extend_from_slice(if is_old { new.as_bytes() } else { line })?;
    }
    Ok(())
}

/// Puts the text `q` of the next run behind bytes.
fn push_second(bytes: &mut Vec<u8>, case: &Case) -> Result<(), AllocError> {
    let text = front(&case.texts.second, case.settings.second_length);
    let old = case.change.old.as_str();
    if old.is_empty() {
        bytes.extend_from_slice(text)
    } else {
        push_changed(bytes, text, old, case.change.new.as_str())
    }
}

/// Puts a text of that name, which has no bytes yet, on a shelf.
fn push_name(
    alloc: Global,
    texts: &mut Vec<(String, Vec<u8>)>,
    name: &str,
) -> Result<(), AllocError> {
    let name = String::from_str(alloc, name)?;
    texts.push((name, Vec::new(alloc)))?;
    Ok(())
}

/// Puts the texts of the next run on a shelf.
fn push_texts(
    alloc: Global,
    texts: &mut Vec<(String, Vec<u8>)>,
    case: &Case,
) -> Result<(), AllocError> {
    push_name(alloc, texts, "p")?;
    if let Some(named) = texts.last_mut() {
        let first = front(&case.texts.first, case.settings.first_length);
        named.1.extend_from_slice(first)?;
    }
    push_name(alloc, texts, "q")?;
    match texts.last_mut() {
        Some(named) => push_second(&mut named.1, case),
        None => Ok(()),
    }
}

/// The shelf of the next run.
fn shelf_of(alloc: Global, case: &Case) -> Result<MemShelf, AllocError> {
    let mut texts = Vec::new(alloc);
    push_texts(alloc, &mut texts, case)?;
    match vec![in alloc; case.settings.shelf_fails] {
        Ok(fails) => Ok(MemShelf::new(texts, PIECE, fails)),
        Err(_) => Err(AllocError),
    }
}

/// Runs the program, and answers what it does besides what it writes.
fn outcome_of<R: Threads + Wait + Sync>(
    threads: &R,
    alloc: Global,
    words: &[String],
    shelf: &mut MemShelf,
    sink: &mut MemSink,
    gate: &Schedule,
) -> Outcome {
    let mut closed = Vec::new(alloc);
    let status = run(threads, alloc, words, shelf, sink, gate, &mut closed);
    let (entries, kept) = match closed.last() {
        Some(race) => (race.history().len(), race.kept().states()),
        None => (0, 0),
    };
    Outcome {
        status,
        races: closed.len(),
        entries,
        kept,
    }
}

/// Runs the program over this shelf.
fn run_over<R: Threads + Wait + Sync>(
    threads: &R,
    alloc: Global,
    case: &mut Case,
    words: &[String],
    shelf: &mut MemShelf,
) -> Result<(), AllocError> {
    let fails = vec![in alloc; case.settings.sink_fails]?;
    let mut sink = MemSink::new(alloc, PIECE, fails);
    case.answer.outcome = outcome_of(threads, alloc, words, shelf, &mut sink, &case.gate);
    case.answer.output.clear();
    case.answer.output.extend_from_slice(sink.taken())
}

/// Makes what is shown of the answer to these words.
fn show(case: &mut Case, line: &str) -> Result<(), AllocError> {
    case.answer.show(line, case.settings.lines, &case.only)?;
    case.gate
        .push_seen(&mut case.answer.shown, case.answer.outcome)
}

/// Runs the program on these words, and makes what is shown of the answer.
fn answer<R: Threads + Wait + Sync>(
    threads: &R,
    alloc: Global,
    case: &mut Case,
    line: &str,
    words: &[String],
) -> Result<(), AllocError> {
    let mut shelf = shelf_of(alloc, case)?;
    run_over(threads, alloc, case, words, &mut shelf)?;
    show(case, line)
}

/// Runs the program on these words, and prints the answer.
fn answer_once<R: Threads + Wait + Sync>(
    threads: &R,
    rt: &HostRuntime,
    case: &mut Case,
    line: &str,
    words: &[String],
) {
    match answer(threads, rt.alloc(), case, line, words) {
        Ok(()) => put(rt, case.answer.shown.as_str()),
        Err(_) => put_no_memory(rt),
    }
}

/// Runs the program on the words of a line, and prints the answer.
fn answer_words<R: Threads + Wait + Sync>(
    threads: &R,
    rt: &HostRuntime,
    case: &mut Case,
    line: &str,
) {
    match words_of(rt.alloc(), line) {
        Ok(words) => answer_once(threads, rt, case, line, &words),
        Err(_) => put_no_memory(rt),
    }
    case.end_run();
}

/// Prints an answer that is not the one before, behind the number from which on it is that.
fn put_from(rt: &HostRuntime, number: usize, shown: &str) {
    let _ = print!(rt; "from {number} on\n{shown}");
}

/// Runs the program on these words and with each of these numbers, and prints each answer that is not the one before.
fn answer_numbers<R: Threads + Wait + Sync>(
    threads: &R,
    rt: &HostRuntime,
    case: &mut Case,
    (varied, from, to): (Varied, usize, usize),
    line: &str,
    words: &[String],
) -> Result<(), AllocError> {
    for number in from..=to {
        case.vary(varied, number);
        answer(threads, rt.alloc(), case, line, words)?;
        if !case.answer.is_as_before()? {
            put_from(rt, number, case.answer.shown.as_str());
        }
    }
    Ok(())
}

/// Runs the program on the words of a line and with each of these numbers.
fn answer_varied<R: Threads + Wait + Sync>(
    threads: &R,
    rt: &HostRuntime,
    case: &mut Case,
    numbers: (Varied, usize, usize),
    line: &str,
) {
    case.answer.before.clear();
    match words_of(rt.alloc(), line) {
        Ok(words) => {
            if answer_numbers(threads, rt, case, numbers, line, &words).is_err() {
                put_no_memory(rt);
            }
        }
        Err(_) => put_no_memory(rt),
    }
}

/// Runs the program with each of the numbers that the line tells in front of the words. False where it tells none.
fn answer_each<R: Threads + Wait + Sync>(
    threads: &R,
    rt: &HostRuntime,
    case: &mut Case,
    line: &str,
) -> bool {
    let (varied, line) = first_word(line);
    let (from, line) = first_word(line);
    let (to, line) = first_word(line);
    match (
        Varied::of(varied),
        from.parse::<usize>(),
        to.parse::<usize>(),
    ) {
        (Some(varied), Ok(from), Ok(to)) => {
            answer_varied(threads, rt, case, (varied, from, to), line);
            case.end_run();
            true
        }
        _ => false,
    }
}

/// Runs the program where `q` is what the last run wrote.
fn answer_then<R: Threads + Wait + Sync>(
    threads: &R,
    rt: &HostRuntime,
    case: &mut Case,
    rest: &str,
) {
    match case.take_output() {
        Ok(()) => answer_words(threads, rt, case, rest),
        Err(_) => put_no_memory(rt),
    }
}

/// Obeys a command. False where it is none.
fn obey<R: Threads + Wait + Sync>(
    threads: &R,
    rt: &HostRuntime,
    case: &mut Case,
    command: &str,
    rest: &str,
) -> bool {
    match command {
        "run" => answer_words(threads, rt, case, rest),
        "then" => answer_then(threads, rt, case, rest),
        "status" => {
            case.settings.lines = 0;
            answer_words(threads, rt, case, rest);
        }
        "each" => return answer_each(threads, rt, case, rest),
        _ => return case.take(rt.alloc(), command, rest).unwrap_or(false),
    }
    true
}

/// Prints a line.
fn put_line(rt: &HostRuntime, before: &str, line: &str) {
    let _ = println!(rt; "{before}{line}");
}

/// Takes a line.
fn answer_line<R: Threads + Wait + Sync>(
    threads: &R,
    rt: &HostRuntime,
    case: &mut Case,
    line: &str,
) {
    let (command, rest) = first_word(line);
    match command {
        "" => {}
        "#" => {
            case.begin();
            put_line(rt, "", line);
        }
        "##" => put_line(rt, "", line),
        _ => {
            if !obey(threads, rt, case, command, rest) {
                put_line(rt, "? ", line);
            }
        }
    }
}

/// Takes the lines of a text.
pub(crate) fn answer_all<R: Threads + Wait + Sync>(threads: &R, rt: &HostRuntime, text: &str) {
    let mut case = Case::new(rt.alloc());
    for line in text.lines() {
        answer_line(threads, rt, &mut case, line);
    }
}
