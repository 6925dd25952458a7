//! What a run answers, and how that is shown.

use std::alloc::{AllocError, Global};

/// What a run answers besides its output.
#[derive(Clone, Copy)]
pub(crate) struct Outcome {
    pub(crate) status: u8,
    /// How many races were closed.
    pub(crate) races: usize,
    /// How many entries the history of the last of them has.
    pub(crate) entries: usize,
    /// How many states what it keeps has.
    pub(crate) kept: u32,
}

/// What the last run answered.
#[derive(Drop)]
pub(crate) struct Answer {
    pub(crate) outcome: Outcome,
    pub(crate) output: Vec<u8>,
    /// The answer as it is shown.
    pub(crate) shown: String,
    /// The answer that was shown before.
    pub(crate) before: String,
}

/// The number of words of this line that are shown, where it is not all of them.
fn words_shown(only: &[(usize, usize)], number: usize) -> Option<usize> {
    for (line, words) in only {
        if *line == number {
            return Some(*words);
        }
    }
    None
}

/// Puts the first words of a line behind a text, and `*` where there are more.
fn push_words(shown: &mut String, line: &str, words: usize) -> Result<(), AllocError> {
    for (number, word) in line.split(' ').enumerate() {
        if number > 0 {
            shown.push(' ')?;
        }
        if number == words {
            return shown.push('*');
        }
        shown.push_str(word)?;
    }
    Ok(())
}

/// Puts a line, or its first words, behind a text.
fn push_line(shown: &mut String, line: &str, words: Option<usize>) -> Result<(), AllocError> {
    shown.push_str("| ")?;
    match words {
        Some(words) => push_words(shown, line, words)?,
        None => shown.push_str(line)?,
    }
    shown.push('\n')
}

/// Puts the first lines of an output behind a text. In place of an end of a line that is missing stands a backslash.
fn push_output(
    shown: &mut String,
    output: &str,
    lines: usize,
    only: &[(usize, usize)],
) -> Result<(), AllocError> {
    for (place, line) in output.split_inclusive('\n').enumerate() {
        if place == lines {
            return Ok(());
        }
        let words = words_shown(only, place.saturating_add(1));
        match line.strip_suffix('\n') {
            Some(line) => push_line(shown, line, words)?,
            None => push_open_line(shown, line)?,
        }
    }
    Ok(())
}

fn push_open_line(shown: &mut String, line: &str) -> Result<(), AllocError> {
    shown.push_str("| ")?;
    shown.push_str(line)?;
    shown.push_str("\\\n")
}

/// Puts the status, the number of races and the words behind a text.
fn push_status(shown: &mut String, outcome: Outcome, words: &str) -> Result<(), AllocError> {
    let status = outcome.status;
    let races = outcome.races;
    write!(shown, "{status}")?;
    if races > 0 {
        write!(shown, ", {races} race")?;
    }
    if words.is_empty() {
        return shown.push_str(":\n");
    }
    writeln!(shown, ": {words}")
}

impl Answer {
    pub(crate) fn new(alloc: Global) -> Answer {
        Answer {
            outcome: Outcome {
                status: 0,
                races: 0,
                entries: 0,
                kept: 0,
            },
            output: Vec::new(alloc),
            shown: String::new(alloc),
            before: String::new(alloc),
        }
    }

    /// Makes what is shown of the answer to these words.
    pub(crate) fn show(
        &mut self,
        words: &str,
        lines: usize,
        only: &[(usize, usize)],
    ) -> Result<(), AllocError> {
        self.shown.clear();
        push_status(&mut self.shown, self.outcome, words)?;
        match str::from_utf8(&self.output) {
            Ok(output) => push_output(&mut self.shown, output, lines, only),
            Err(_) => self.shown.push_str("| no text\n"),
        }
    }

    /// Whether the answer is shown as the one before; from now on it is the one before.
    pub(crate) fn is_as_before(&mut self) -> Result<bool, AllocError> {
        let is_same = self.shown.as_str() == self.before.as_str();
        self.before.clear();
        self.before.push_str(self.shown.as_str())?;
        Ok(is_same)
    }
}
