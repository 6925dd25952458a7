ghost use Rattle.std.specs.Prelude.{◌≡◌, IfOk, IsTrue};

use crate::letters::Letter;
use std::alloc::AllocError;
use std::marker::Model;

/// A nested word: a list of letters in which each return has a match. Calls may be pending.
#[derive(Drop)]
pub struct Word {
    letters: Vec<Letter>,
}

impl Model for Word {
    ghost use Rattle.std.specs.Prelude.{List, IsTrue};
    ghost use Rattle.nwa_base.specs.declared.letters.Letter.{Letter};
    ghost use Rattle.nwa_base.specs.Words.{are_matched};

    ghost Value = { List Letter };

    ghost view = { λ w. w.letters.items };

    ghost invariant = { λ w. IsTrue (are_matched 0 w.letters.items) };
}

impl Word {
    ghost use Rattle.nwa_base.specs.Words.{are_matched};

    /// The word of letters that are matched.
    pub(crate) fn new(letters: Vec<Letter>) -> Self
        requires { IsTrue (are_matched 0 letters.items) }
        ensures { result ≡ letters.items }
    {
        Word { letters }
    }

    /// The letters, first to last.
    pub fn letters(&self) -> &[Letter]
        ensures value { result.now ≡ self.now }
        ensures matched { IsTrue (are_matched 0 self.now) }
    {
        self.letters.as_slice()
    }

    /// An equal word.
    pub fn copy(&self) -> Result<Word, AllocError>
        ensures { IfOk result (λ w. w ≡ self.now) }
    {
        Ok(Word::new(self.letters.clone()?))
    }
}
