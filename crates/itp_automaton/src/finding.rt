//! Predicates in a list, found without going through it.

ghost use Rattle.std.specs.Prelude.{◌≡◌, Some, IfSome, MatchOption, slice_get};
ghost use Rattle.nwa_base.specs.Members.{Member};
ghost use Rattle.triple_rows.specs.Predicates.{SpellsPredicate};

use crate::equality::is_same;
use lin_rows::Row;
use nwa_base::mixed;
use std::alloc::{AllocError, Global};
use std::marker::Model;
use triple_rows::{PredNode, Scoped};

/// The state that is the predicate.
pub fn state_of(states: &[Scoped], pred: &Scoped) -> Option<usize>
    ensures { MatchOption result (Member states.now pred.now → ⊥) (λ q. (slice_get states.now q ≡ Some pred.now) × SpellsPredicate pred.now.pred) }
{
    for (q, state) in states.iter().enumerate() {
        if is_same(state, pred) {
            return Some(q);
        }
    }
    None
}

/// The place of no predicate.
const NOWHERE: usize = usize::MAX;

/// How long the table of places is at first: a power of two, as it stays.
const LEAST: usize = 64;

/// How many entries of the table a predicate is searched in.
const TRIES: usize = 8;

/// Predicates in a list.
#[derive(Drop)]
pub struct Predicates {
    list: Vec<Scoped>,
    /// Where predicates stand that are neither true nor false: each at the first free entry from that of its fingerprint on.
    table: Vec<usize>,
}

impl Model for Predicates {
    ghost use Rattle.std.specs.Prelude.{List};
    ghost use Rattle.triple_rows.specs.declared.triples.Scoped.{Scoped};

    ghost Value = { List Scoped };

    ghost view = { λ p. p.list.items };
}

impl Predicates {
    ghost use Rattle.std.specs.Prelude.{[], ◌∷◌, ◌++◌, IsTrue, OnOk};

    /// No predicates.
    pub fn new(alloc: Global) -> Self
        ensures { result ≡ [] }
    {
        Predicates {
            list: Vec::new(alloc),
            table: Vec::new(alloc),
        }
    }

    /// The predicates.
    pub fn as_slice(&self) -> &[Scoped]
        ensures { result.now ≡ self.now }
    {
        self.list.as_slice()
    }

    /// The list of them.
    pub fn into_vec(self) -> Vec<Scoped>
        ensures { result.items ≡ self }
    {
        self.list
    }

    /// The place of the predicate. The list is gone through only where the predicate is not in it, but for rare ones.
    pub fn place_of(&self, pred: &Scoped) -> Option<usize>
        ensures { MatchOption result (Member self.now pred.now → ⊥) (λ q. (slice_get self.now q ≡ Some pred.now) × SpellsPredicate pred.now.pred) }
    {
        match self.likely(pred) {
            Some(place) => Some(place),
            None => state_of(&self.list, pred),
        }
    }

    /// The place where the predicate is likely to stand, if it stands there.
    fn likely(&self, pred: &Scoped) -> Option<usize>
        ensures { IfSome result (λ q. (slice_get self.now q ≡ Some pred.now) × SpellsPredicate pred.now.pred) }
    {
        if let Some(place) = truth_place(pred) {
            return if self.stands_at(place, pred) {
                Some(place)
            } else {
                None
            };
        }
        let number = fingerprint(pred);
        for step in 0..TRIES {
            let place = *self.table.get(entry(number, step, self.table.len()))?;
            if place == NOWHERE {
                return None;
            }
            if self.stands_at(place, pred) {
                return Some(place);
            }
        }
        None
    }

    /// Whether the predicate stands at the place.
    fn stands_at(&self, place: usize, pred: &Scoped) -> bool
        ensures { IsTrue result → (slice_get self.now place ≡ Some pred.now) × SpellsPredicate pred.now.pred }
    {
        place < self.list.len() && is_same(&self.list[place], pred)
    }

    /// Adds a predicate at the end.
    pub fn push(&mut self, pred: Scoped) -> Result<(), AllocError>
        ensures { OnOk result (self.new ≡ self.old ++ pred ∷ []) }
    {
        if truth_place(&pred).is_none() {
            self.note(fingerprint(&pred))?;
        }
        self.list.push(pred)?;
        Ok(())
    }

    /// Notes that the next predicate has this fingerprint.
    fn note(&mut self, number: u64) -> Result<(), AllocError>
        ensures { OnOk result (self.new ≡ self.old) }
    {
        if self.table.len() / 4 <= self.list.len() {
            self.table = noted(&self.list, self.table.len().saturating_mul(4).max(LEAST))?;
        }
        put(&mut self.table, number, self.list.len());
        Ok(())
    }
}

/// A table of so many entries with the places of the predicates in a list.
fn noted(list: &Vec<Scoped>, count: usize) -> Result<Vec<usize>, AllocError> {
    let mut table = vec![in *list.allocator(); NOWHERE; count]?;
    for (place, pred) in list.iter().enumerate() {
        if truth_place(pred).is_none() {
            put(&mut table, fingerprint(pred), place);
        }
    }
    Ok(table)
}

/// Puts a place at the first free entry from that of a fingerprint on, if one of those is free that are searched.
fn put(table: &mut Vec<usize>, number: u64, place: usize) {
    let count = table.len();
    for step in 0..TRIES {
        if let Some(found) = table.get_mut(entry(number, step, count)) {
            if *found == NOWHERE {
                *found = place;
                return;
            }
        }
    }
}

/// The entry of a fingerprint, or one that is so many steps behind it, in a table of so many, a power of two.
fn entry(number: u64, step: usize, count: usize) -> usize {
    ((number >> 32) as usize).wrapping_add(step) & count.wrapping_sub(1)
}

/// Where true, or false, of a procedure stands in a list that begins with true and false of each procedure, in order.
fn truth_place(pred: &Scoped) -> Option<usize> {
    let [PredNode::Truth(value)] = pred.pred.nodes() else {
        return None;
    };
    let first = pred.proc as usize * 2;
    Some(if *value { first } else { first + 1 })
}

/// A number that equal predicates share, and others seldom.
fn fingerprint(pred: &Scoped) -> u64 {
    let mut sum = mixed(1, pred.proc as u64);
    for node in pred.pred.nodes() {
        sum = match node {
            PredNode::Truth(value) => mixed(sum, *value as u64),
            PredNode::Atom(row) => with_row(sum, row),
            PredNode::And(parts) => mixed(sum, *parts as u64),
            PredNode::Or(parts) => mixed(sum, !(*parts as u64)),
        };
    }
    sum
}

fn with_row(before: u64, row: &Row) -> u64 {
    let mut sum = mixed(before, low_bits(row.bound()));
    for (column, coefficient) in row.terms() {
        sum = mixed(mixed(sum, *column as u64), low_bits(*coefficient));
    }
    sum
}

/// The low bits of a number, up to its sign, with a bit for that.
fn low_bits(number: i128) -> u64 {
    let low = (number.unsigned_abs() & 0x7FFF_FFFF_FFFF_FFFF) as u64;
    if number < 0 { !low } else { low }
}
