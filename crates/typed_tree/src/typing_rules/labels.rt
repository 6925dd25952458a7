//! The labels that a goto may name: those of the lists around it.

ghost use Rattle.std.specs.Prelude.{◌≡◌, ◌++◌, ◌∷◌, ◌-◌, [], List, length, drop, map, OnOk, Option};
ghost use Rattle.typed_tree.specs.TypedView as view;
ghost use Rattle.typed_tree.specs.TypingRules.Rules.{is_member, own_labels};
ghost use Rattle.typed_tree.specs.TypingRules.Ties.LabelNumber.{label_number};

use crate::TStmt;
use std::alloc::{AllocError, Global};
use std::collections::HashMap;
use std::marker::Model;

/// Labels, those of the innermost list first, with how often each stands there.
#[derive(Drop)]
pub(crate) struct Labels {
    stack: Vec<u32>,
    counts: HashMap<u32, usize>,
}

impl Model for Labels {
    ghost use Rattle.std.specs.Prelude.{◌≡◌, ◌==◌, ℕ, List, nat_eq, count_by, reverse};
    ghost use Rattle.std.specs.Option.{unwrap_or};
    ghost use Rattle.std.specs.HashMap as hash;

    ghost Value = { List ℕ };

    ghost view = { λ l. reverse l.stack.items };

    ghost invariant = { λ l. (q : ℕ) → unwrap_or (hash.get nat_eq l.counts q) 0 ≡ count_by (λ x. x == q) l.stack.items };
}

impl Labels {
    pub(crate) fn none(alloc: Global) -> Labels
        ensures { result ≡ [] }
    {
        Labels {
            stack: Vec::new(alloc),
            counts: HashMap::new(alloc),
        }
    }

    /// How many there are.
    pub(crate) fn count(&self) -> usize
        ensures { result ≡ length self.now }
    {
        self.stack.len()
    }

    pub(crate) fn has(&self, label: u32) -> bool
        ensures { result ≡ is_member label self.now }
    {
        self.counts.get(&label).copied().unwrap_or(0) > 0
    }

    /// Puts one more in front.
    fn push(&mut self, label: u32) -> Result<(), AllocError>
        ensures { OnOk result (self.new ≡ label ∷ self.old) }
    {
        self.stack.reserve(1)?;
        let count = self.counts.get(&label).copied().unwrap_or(0);
        self.counts.insert(label, count + 1)?;
        self.stack.push_reserved(label);
        Ok(())
    }

    /// Takes the first one out.
    fn pop(&mut self)
        ensures { self.new ≡ drop 1 self.old }
    {
        if let Some(label) = self.stack.pop() {
            if let Some(count) = self.counts.get_mut(&label) {
                *count -= 1;
            }
        }
    }

    /// Puts those of one more list in front.
    pub(crate) fn enter(&mut self, statements: &[TStmt]) -> Result<(), AllocError>
        ensures { OnOk result (self.new ≡ own_labels (view.statements statements.now) ++ self.old) }
    {
        let mut left = statements.len();
        while left > 0 {
            left -= 1;
            if let Some(label) = label_of(&statements[left]) {
                self.push(label)?;
            }
        }
        Ok(())
    }

    /// Keeps the last ones, so many.
    pub(crate) fn leave(&mut self, count: usize)
        ensures { self.new ≡ drop (length self.old - count) self.old }
    {
        for _more in count..self.count() {
            self.pop();
        }
    }
}

/// The number of a label.
fn label_of(statement: &TStmt) -> Option<u32>
    ensures { result ≡ label_number (view.statement statement.now) }
{
    match statement {
        TStmt::Label(label) => Some(*label),
        TStmt::Assert(_, _) | TStmt::Assume(_, _) | TStmt::Havoc(_, _) => None,
        TStmt::Assign(_, _, _) | TStmt::Call(_, _, _, _) => None,
        TStmt::If(_, _, _, _) | TStmt::While(_, _, _, _) => None,
        TStmt::Break(_, _) | TStmt::Goto(_, _) | TStmt::Return(_) => None,
    }
}
