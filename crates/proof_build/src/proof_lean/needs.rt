//! Facts by need: those on which false rests where it holds.

use crate::proof_lean::drafts::{Draft, Move, Rule};
use crate::proof_lean::facts::{Facts, facts_of};
use nwa_base::Groups;
use std::alloc::{AllocError, Global};

/// A search for what is needed.
#[derive(Drop)]
struct Search {
    /// What holds.
    held: Facts,
    /// What is needed.
    needed: Facts,
    /// The needed facts, nodes with predicates, of which it is still to be asked what they rest on.
    open: Vec<(usize, usize)>,
}

impl Search {
    /// A fact is needed.
    fn ask(&mut self, node: usize, pred: usize) -> Result<(), AllocError> {
        if self.needed.add(node, pred)? {
            self.open.push((node, pred))?;
        }
        Ok(())
    }

    /// How many facts more are needed where a triple that shows a move is taken.
    fn price(&self, rule: Rule, step: Move) -> u8 {
        let at_exit = self.needed.has(step.exit, rule.exit);
        let before = self.needed.has(step.before, rule.before);
        match (at_exit, before) {
            (true, true) => 0,
            (false, false) => 2,
            _ => 1,
        }
    }

    /// The first of the triples that show the move for which the fewest facts more are needed.
    fn cheapest(&self, rules: &[Rule], step: Move) -> Option<Rule> {
        let mut best = None;
        let mut least = u8::MAX;
        for rule in rules {
            if self.held.show(*rule, step) && self.price(*rule, step) < least {
                best = Some(*rule);
                least = self.price(*rule, step);
            }
            if least == 0 {
                return best;
            }
        }
        best
    }

    /// What one of the triples needs to show the move is needed.
    fn ask_before(&mut self, rules: &[Rule], step: Move) -> Result<(), AllocError> {
        if let Some(rule) = self.cheapest(rules, step) {
            self.ask(step.exit, rule.exit)?;
            self.ask(step.before, rule.before)?;
        }
        Ok(())
    }

    /// False is needed where it holds.
    fn ask_false(&mut self, count: usize) -> Result<(), AllocError> {
        for node in 0..count {
            if self.held.has(node, 1) {
                self.ask(node, 1)?;
            }
        }
        Ok(())
    }
}

/// The triples by their letters and targets.
pub(crate) fn by_target(
    alloc: Global,
    rules: &[Rule],
) -> Result<Groups<(u32, usize), Rule>, AllocError> {
    let mut groups = Groups::new(alloc);
    for rule in rules {
        groups.add((rule.letter, rule.to), *rule)?;
    }
    Ok(groups)
}

/// The moves by the nodes to which they lead.
fn by_end(alloc: Global, moves: &[Move]) -> Result<Groups<usize, Move>, AllocError> {
    let mut groups = Groups::new(alloc);
    for step in moves {
        groups.add(step.to, *step)?;
    }
    Ok(groups)
}

/// The search over nodes of which nothing was asked.
fn begin(alloc: Global, draft: &Draft) -> Result<Search, AllocError> {
    let held = facts_of(alloc, &draft.nodes)?;
    Ok(Search {
        held,
        needed: Facts::new(alloc),
        open: Vec::new(alloc),
    })
}

/// What the predicate at the ends of the moves rests on is needed.
fn ask_all(
    search: &mut Search,
    rules: &Groups<(u32, usize), Rule>,
    moves: &[Move],
    pred: usize,
) -> Result<(), AllocError> {
    for step in moves {
        search.ask_before(rules.of(&(step.letter, pred)), *step)?;
    }
    Ok(())
}

/// Asks of each needed fact what it rests on.
fn close(
    search: &mut Search,
    rules: &Groups<(u32, usize), Rule>,
    moves: &Groups<usize, Move>,
) -> Result<(), AllocError> {
    // Each fact that holds is opened once at most.
    for _ in 0..search.held.count() {
        let Some((node, pred)) = search.open.pop() else {
            return Ok(());
        };
        ask_all(search, rules, moves.of(&node), pred)?;
    }
    Ok(())
}

/// The facts that are needed: false where it holds, and for each needed fact and each move to its node what one triple needs to show it there.
pub(crate) fn needed(alloc: Global, draft: &Draft) -> Result<Facts, AllocError> {
    let rules = by_target(alloc, &draft.rules)?;
    let moves = by_end(alloc, &draft.moves)?;
    let mut search = begin(alloc, draft)?;
    search.ask_false(draft.nodes.len())?;
    close(&mut search, &rules, &moves)?;
    let Search { needed, .. } = search;
    Ok(needed)
}
