//! Numbers of triples, each noted once.

ghost use Rattle.std.specs.Prelude.{◌≡◌};
ghost use Rattle.proof_build.specs.Ties.Noted.{plain_key};

use indexmap::IndexSet;
use proof_names::Listed;
use std::alloc::{AllocError, Global};
use std::marker::Model;

/// The numbers of a triple as a key of a table.
#[derive(Drop, PartialEq, Eq, Hash)]
pub(crate) enum NotedKey {
    Inside {
        from: usize,
        letter: u32,
        to: usize,
    },
    Call {
        from: usize,
        letter: u32,
        to: usize,
    },
    Back {
        exit: usize,
        before: usize,
        letter: u32,
        to: usize,
    },
}

fn noted_key(listed: Listed) -> NotedKey
    ensures { plain_key result ≡ listed }
{
    match listed {
        Listed::Inside { from, letter, to } => NotedKey::Inside { from, letter, to },
        Listed::Call { from, letter, to } => NotedKey::Call { from, letter, to },
        Listed::Back {
            exit,
            before,
            letter,
            to,
        } => NotedKey::Back {
            exit,
            before,
            letter,
            to,
        },
    }
}

/// Numbers of triples, each once, in the order in which they were noted.
#[derive(Drop)]
pub(crate) struct Noted {
    keys: IndexSet<NotedKey>,
}

impl Model for Noted {
    ghost use Rattle.std.specs.Prelude.{List, map};
    ghost use Rattle.proof_names.specs.declared.outlines.Listed.{Listed};
    ghost use Rattle.proof_build.specs.Ties.Noted.{plain_key};

    ghost Value = { List Listed };

    ghost view = { λ n. map plain_key n.keys.keys };
}

impl Noted {
    ghost use Rattle.std.specs.Prelude.{◌↔◌, [], IsTrue, IfOk};
    ghost use Rattle.nwa_base.specs.Members.{Member};
    ghost use Rattle.proof_build.specs.Ties.Noted.{IsInserted};

    /// None yet.
    pub(crate) fn new(alloc: Global) -> Self
        ensures { result ≡ [] }
    {
        Noted {
            keys: IndexSet::new(alloc),
        }
    }

    /// Whether the numbers are noted.
    pub(crate) fn contains(&self, listed: Listed) -> bool
        ensures { IsTrue result ↔ Member self.now listed }
    {
        self.keys.contains(&noted_key(listed))
    }

    /// Notes the numbers, unless they are noted; whether they were not.
    pub(crate) fn insert(&mut self, listed: Listed) -> Result<bool, AllocError>
        ensures { IfOk result (λ is_new. IsInserted self.old listed is_new self.new) }
    {
        let is_new = self.keys.insert(noted_key(listed))?;
        Ok(is_new)
    }
}
