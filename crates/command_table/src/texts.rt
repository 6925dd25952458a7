//! The texts of a shelf.

use std::alloc::{AllocError, Global};

/// The name of a text.
#[derive(Clone, Copy)]
pub(crate) enum Name {
    P,
    Q,
}

impl Name {
    /// The name that a word is.
    pub(crate) fn of(word: &str) -> Option<Name> {
        match word {
            "p" => Some(Name::P),
            "q" => Some(Name::Q),
            _ => None,
        }
    }
}

/// The text `p` and the text `q`.
#[derive(Drop)]
pub(crate) struct Texts {
    pub(crate) first: Vec<u8>,
    pub(crate) second: Vec<u8>,
}

impl Texts {
    pub(crate) fn new(alloc: Global) -> Texts {
        Texts {
            first: Vec::new(alloc),
            second: Vec::new(alloc),
        }
    }

    pub(crate) fn clear(&mut self) {
        self.first.clear();
        self.second.clear();
    }

    /// Puts bytes behind a text.
    pub(crate) fn push(&mut self, name: Name, bytes: &[u8]) -> Result<(), AllocError> {
        match name {
            Name::P => self.first.extend_from_slice(bytes),
            Name::Q => self.second.extend_from_slice(bytes),
        }
    }

    /// Puts a line behind a text.
    pub(crate) fn push_line(&mut self, name: Name, line: &str) -> Result<(), AllocError> {
        self.push(name, line.as_bytes())?;
        self.push(name, b"\n")
    }

    /// Puts lines with slashes between them behind a text.
    pub(crate) fn push_lines(&mut self, name: Name, lines: &str) -> Result<(), AllocError> {
        for line in lines.split('/') {
            self.push_line(name, line)?;
        }
        Ok(())
    }

    /// Puts bytes so many times behind a text.
    pub(crate) fn push_times(
        &mut self,
        name: Name,
        count: u32,
        bytes: &[u8],
    ) -> Result<(), AllocError> {
        for _ in 0..count {
            self.push(name, bytes)?;
        }
        Ok(())
    }
}
