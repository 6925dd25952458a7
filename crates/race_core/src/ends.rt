//! How a race ends.

ghost use Rattle.std.specs.Prelude.{◌≡◌};

use nwa_base::Word;

/// Why nothing is known of a word that is kept.
#[derive(Clone, Copy, Debug, PartialEq, Eq)]
pub enum Cause {
    /// The history has as many entries as there are rounds.
    Rounds,
    /// The search for a whole point gave up.
    Whole,
    /// A number does not fit.
    Number,
    /// The word has a letter in which a product of two expressions is free, and no run was found that fails.
    Product,
}

/// The end of a race.
#[derive(Drop)]
pub enum End {
    /// No word is kept.
    Safe,
    /// The word is kept and feasible. Its run fails after `steps` steps and takes the choices in order.
    Unsafe {
        /// The word.
        word: Word,
        /// How many steps its run takes.
        steps: u64,
        /// The choices of its run, in order.
        choices: Vec<i128>,
    },
    /// The word is kept, and nothing is known of it.
    Unknown {
        /// Why nothing is known.
        cause: Cause,
        /// The word.
        word: Word,
    },
}

/// Which end it is.
#[derive(Clone, Copy, Debug, PartialEq, Eq)]
pub enum EndKind {
    /// No word is kept.
    Safe,
    /// A word is feasible.
    Unsafe,
    /// Nothing is known of a word, for this cause.
    Unknown(Cause),
}

impl End {
    ghost use Rattle.race_core.specs.Ends.{kind_of};

    /// Which end it is.
    pub fn kind(&self) -> EndKind
        ensures { result ≡ kind_of self.now }
    {
        match self {
            End::Safe => EndKind::Safe,
            End::Unsafe { .. } => EndKind::Unsafe,
            End::Unknown { cause, .. } => EndKind::Unknown(*cause),
        }
    }
}
