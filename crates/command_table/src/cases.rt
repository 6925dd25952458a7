//! A case, and the lines that make it.

use crate::answers::Answer;
use crate::gates::Schedule;
use crate::texts::{Name, Texts};
use std::alloc::{AllocError, Global};
use table_reading::{first_word, push_line};

/// What a run is repeated with.
#[derive(Clone, Copy)]
pub(crate) enum Varied {
    /// The length at which this text is cut off.
    Length(Name),
    /// The call on the shelf that fails.
    Shelf,
    /// The call on the sink that fails.
    Sink,
}

impl Varied {
    /// What a word names.
    pub(crate) fn of(word: &str) -> Option<Varied> {
        match word {
            "shelf" => Some(Varied::Shelf),
            "sink" => Some(Varied::Sink),
            _ => match Name::of(word) {
                Some(name) => Some(Varied::Length(name)),
                None => None,
            },
        }
    }
}

/// Numbers that hold for the next run.
#[derive(Clone, Copy)]
pub(crate) struct Settings {
    /// The call on the shelf that fails, 0 for none.
    pub(crate) shelf_fails: u64,
    /// The call on the sink that fails, 0 for none.
    pub(crate) sink_fails: u64,
    /// How many lines of the output are shown.
    pub(crate) lines: usize,
    /// Beyond how many bytes `p` is cut off.
    pub(crate) first_length: usize,
    /// Beyond how many bytes `q` is cut off.
    pub(crate) second_length: usize,
}

/// No call fails, nothing is cut off, and all is shown.
const PLAIN: Settings = Settings {
    shelf_fails: 0,
    sink_fails: 0,
    lines: usize::MAX,
    first_length: usize::MAX,
    second_length: usize::MAX,
};

/// A line of `q`, and those that stand in its place.
#[derive(Drop)]
pub(crate) struct Change {
    pub(crate) old: String,
    pub(crate) new: String,
}

/// A case.
#[derive(Drop)]
pub(crate) struct Case {
    pub(crate) texts: Texts,
    pub(crate) settings: Settings,
    /// Numbers of lines of which only so many words are shown.
    pub(crate) only: Vec<(usize, usize)>,
    pub(crate) change: Change,
    pub(crate) gate: Schedule,
    pub(crate) answer: Answer,
}

impl Case {
    pub(crate) fn new(alloc: Global) -> Case {
        Case {
            texts: Texts::new(alloc),
            settings: PLAIN,
            only: Vec::new(alloc),
            change: Change {
                old: String::new(alloc),
                new: String::new(alloc),
            },
            gate: Schedule::Free,
            answer: Answer::new(alloc),
        }
    }

    /// Forgets what held for one run.
    pub(crate) fn end_run(&mut self) {
        self.settings = PLAIN;
        self.gate = Schedule::Free;
        self.only.clear();
        self.change.old.clear();
        self.change.new.clear();
    }

    /// Forgets all.
    pub(crate) fn begin(&mut self) {
        self.texts.clear();
        self.end_run();
    }

    /// Takes a line that makes a case. False where it is none.
    pub(crate) fn take(
        &mut self,
        alloc: Global,
        command: &str,
        rest: &str,
    ) -> Result<bool, AllocError> {
        match command {
            "p" => self.texts.push_line(Name::P, rest)?,
            "q" => self.texts.push_line(Name::Q, rest)?,
            "-" => self.change.old.push_str(rest)?,
            "+" => push_line(&mut self.change.new, rest)?,
            "part" | "lines" | "bytes" => return self.take_text(alloc, command, rest),
            "gate" => return Ok(self.take_gate(rest)),
            _ => return self.set(command, rest),
        }
        Ok(true)
    }

    /// Takes a line that lengthens the text that it names.
    fn take_text(&mut self, alloc: Global, command: &str, rest: &str) -> Result<bool, AllocError> {
        let (name, rest) = first_word(rest);
        let Some(name) = Name::of(name) else {
            return Ok(false);
        };
        match command {
            "part" => self.texts.push(name, rest.as_bytes())?,
            "lines" => self.texts.push_lines(name, rest)?,
            _ => return self.take_bytes(alloc, name, rest),
        }
        Ok(true)
    }

    /// Takes a count and the numbers of bytes.
    fn take_bytes(&mut self, alloc: Global, name: Name, rest: &str) -> Result<bool, AllocError> {
        let (count, numbers) = first_word(rest);
        let Ok(count) = count.parse::<u32>() else {
            return Ok(false);
        };
        let bytes = bytes_of(alloc, numbers)?;
        self.texts.push_times(name, count, &bytes)?;
        Ok(true)
    }

    /// Takes the gate of that name for the next run. False where there is none.
    fn take_gate(&mut self, name: &str) -> bool {
        match Schedule::named(name) {
            Some(gate) => {
                self.gate = gate;
                true
            }
            None => false,
        }
    }

    /// Takes a number that holds for the next run.
    fn set(&mut self, command: &str, rest: &str) -> Result<bool, AllocError> {
        let (number, rest) = first_word(rest);
        let Ok(number) = number.parse::<usize>() else {
            return Ok(false);
        };
        match command {
            "shelf" => self.vary(Varied::Shelf, number),
            "sink" => self.vary(Varied::Sink, number),
            "first" => self.settings.lines = number,
            "only" => return self.show_only(number, rest),
            _ => return Ok(false),
        }
        Ok(true)
    }

    fn show_only(&mut self, line: usize, words: &str) -> Result<bool, AllocError> {
        let Ok(words) = words.parse::<usize>() else {
            return Ok(false);
        };
        self.only.push((line, words))?;
        Ok(true)
    }

    /// The next run has this number.
    pub(crate) fn vary(&mut self, varied: Varied, number: usize) {
        match varied {
            Varied::Length(Name::P) => self.settings.first_length = number,
            Varied::Length(Name::Q) => self.settings.second_length = number,
            Varied::Shelf => self.settings.shelf_fails = number as u64,
            Varied::Sink => self.settings.sink_fails = number as u64,
        }
    }

    /// The text `q` is what the last run wrote.
    pub(crate) fn take_output(&mut self) -> Result<(), AllocError> {
        self.texts.second.clear();
        self.texts.second.extend_from_slice(&self.answer.output)
    }
}

/// The byte of a number.
fn byte(number: &str) -> u8 {
    number.parse::<u8>().unwrap_or(0)
}

/// The bytes of these numbers.
fn bytes_of(alloc: Global, numbers: &str) -> Result<Vec<u8>, AllocError> {
    let mut bytes = Vec::new(alloc);
    for number in numbers.split_whitespace() {
        bytes.push(byte(number))?;
    }
    Ok(bytes)
}
