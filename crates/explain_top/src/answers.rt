//! What the program answers, before it is written.

ghost use Rattle.std.specs.Prelude.{◌≡◌, IfOk};
ghost use Rattle.explain_top.specs.Ties.Views.{answered};

use std::alloc::{AllocError, Global};
use text_reports::TextAnswer;

/// What the program answers to its words.
#[derive(Drop)]
pub(crate) enum Answer {
    /// The words are faulty.
    Usage,
    /// What is answered to the texts that they name.
    OfTexts(TextAnswer),
}

impl Answer {
    /// The bytes that are written.
    pub fn text(self, alloc: Global) -> Result<Vec<u8>, AllocError>
        ensures { IfOk result (λ text. text.items ≡ (answered self).bytes) }
    {
        match self {
            Answer::Usage => {
                let line = String::from_str(
                    alloc,
                    "usage: explain PROGRAM ANSWER [--entry NAME] [--all]\n",
                )?;
                Ok(line.into_bytes())
            }
            Answer::OfTexts(answer) => answer.text(alloc),
        }
    }

    /// The status of the program.
    pub fn status(&self) -> u8
        ensures { result ≡ (answered self.now).status }
    {
        match self {
            Answer::Usage => 4,
            Answer::OfTexts(answer) => answer.status(),
        }
    }
}
