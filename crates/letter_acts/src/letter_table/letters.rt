//! The acts of letters with their marks, each once.

ghost use Rattle.std.specs.Prelude.{◌≡◌, [], map, IfOk, OnOk, OnErr};

use crate::Act;
use crate::letter_table::keys::{MarkedKey, marked_key};
use indexmap::IndexSet;
use std::alloc::{AllocError, Global};
use std::marker::Model;

/// Acts that differ, by the numbers of their letters.
#[derive(Drop)]
pub(crate) struct Letters {
    alloc: Global,
    keys: IndexSet<MarkedKey>,
    acts: Vec<Act>,
}

impl Model for Letters {
    ghost use Rattle.std.specs.Prelude.{◌≡◌, List, map};
    ghost use Rattle.letter_acts.specs.LetterTable.Letters.{MarkedAct, marked_acts};
    ghost use Rattle.letter_acts.specs.LetterTable.Ties.Keys.{marked_key};

    ghost Value = { List MarkedAct };

    ghost view = { λ l. marked_acts l.acts.items };

    ghost invariant = { λ l. map marked_key l.keys.keys ≡ marked_acts l.acts.items };
}

impl Letters {
    ghost use Rattle.letter_acts.specs.LetterTable.Letters.{marked_act, marked_acts, act_number, with_act};

    /// Without acts.
    pub(crate) fn new(alloc: Global) -> Self
        ensures { result ≡ [] }
    {
        Letters {
            alloc,
            keys: IndexSet::new(alloc),
            acts: Vec::new(alloc),
        }
    }

    /// The number of an act's letter; a new one where the act is not there yet.
    pub(crate) fn number(&mut self, act: Act) -> Result<u32, AllocError>
        ensures number { IfOk result (λ n. n ≡ act_number self.old (marked_act act)) }
        ensures added { OnOk result (self.new ≡ with_act self.old (marked_act act)) }
        ensures kept { OnErr result (self.new ≡ self.old) }
    {
        // numbers have 32 bits, so there is room for one letter more below that
        if self.keys.len() > u32::MAX as usize {
            return Err(AllocError);
        }
        let key = marked_key(self.alloc, &act)?;
        self.acts.reserve(1)?;
        let (place, is_new) = self.keys.insert_full(key)?;
        if is_new {
            self.acts.push_reserved(act);
        }
        Ok(place as u32)
    }

    /// The acts.
    pub(crate) fn finish(self) -> Vec<Act>
        ensures { marked_acts result.items ≡ self }
    {
        let Letters {
            alloc: _,
            keys: _,
            acts,
        } = self;
        acts
    }
}
