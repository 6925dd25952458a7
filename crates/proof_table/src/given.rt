//! What stands before a question.

use std::alloc::{AllocError, Global};
use table_reading::push_line;

/// What was read before a question.
#[derive(Drop)]
pub(crate) struct Given {
    /// A program, a graph, an annotation or a failure.
    pub(crate) text: String,
    /// The nodes of a refutation, or predicates, a line each.
    pub(crate) parts: String,
    /// They stood before a question.
    pub(crate) asked: bool,
}

impl Given {
    /// Nothing.
    pub(crate) fn empty(alloc: Global) -> Self {
        Given {
            text: String::new(alloc),
            parts: String::new(alloc),
            asked: false,
        }
    }

    /// Adds a line of a text, which is a new one behind a question.
    fn push_text(&mut self, line: &str) -> Result<(), AllocError> {
        if self.asked {
            self.text.clear();
            self.parts.clear();
            self.asked = false;
        }
        push_line(&mut self.text, line)
    }

    /// Adds a part of what is asked; behind a question it is the first of others.
    fn push_part(&mut self, line: &str) -> Result<(), AllocError> {
        if self.asked {
            self.parts.clear();
            self.asked = false;
        }
        push_line(&mut self.parts, line)
    }

    /// Adds a line, which is a part of what is asked behind `!`.
    pub(crate) fn push(&mut self, line: &str) -> Result<(), AllocError> {
        match line.strip_prefix("! ") {
            Some(part) => self.push_part(part),
            None => self.push_text(line),
        }
    }
}
