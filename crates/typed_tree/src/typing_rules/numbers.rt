//! Sets of numbers, and lists in which no two numbers are the same.

ghost use Rattle.std.specs.Prelude.{◌≡◌, nat_eq, IfOk};
ghost use Rattle.typed_tree.specs.TypingRules.Rules.{all_differ, is_member};

use std::alloc::{AllocError, Global};
use std::collections::HashSet;
use std::marker::Model;

/// Numbers in a list, found by a set.
#[derive(Drop)]
pub(crate) struct Numbers<'a> {
    listed: &'a [u32],
    found: HashSet<u32>,
}

impl<'a> Model for Numbers<'a> {
    ghost use Rattle.std.specs.Prelude.{◌≡◌, ℕ, List, nat_eq};
    ghost use Rattle.std.specs.HashSet.{contains};
    ghost use Rattle.typed_tree.specs.TypingRules.Rules.{is_member};

    ghost Value = { List ℕ };

    ghost view = { λ n. n.listed.now };

    ghost invariant = { λ n. (q : ℕ) → contains nat_eq n.found q ≡ is_member q n.listed.now };
}

impl<'a> Numbers<'a> {
    pub(crate) fn new(alloc: Global, listed: &'a [u32]) -> Result<Numbers<'a>, AllocError>
        ensures { IfOk result (λ n. n ≡ listed.now) }
    {
        let mut found = HashSet::new(alloc);
        for number in listed {
            found.insert(*number)?;
        }
        Ok(Numbers { listed, found })
    }

    pub(crate) fn has(&self, number: u32) -> bool
        ensures { result ≡ is_member number self.now }
    {
        self.found.contains(&number)
    }
}

/// Whether no two are the same.
pub(crate) fn differ(alloc: Global, numbers: &[u64]) -> Result<bool, AllocError>
    ensures { IfOk result (λ b. b ≡ all_differ nat_eq numbers.now) }
{
    let mut found = HashSet::new(alloc);
    for number in numbers {
        if !found.insert(*number)? {
            return Ok(false);
        }
    }
    Ok(true)
}
