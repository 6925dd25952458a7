//! The leaves of a tree, one after another.

use crate::late_refutations::bounds::Bound;
use crate::late_refutations::leaves::late_leaf;
use crate::late_refutations::orders::Order;
use crate::late_refutations::types::Parts;
use farkas_check::{Node, Refutation};
use lin_rows::{Col, Row};
use std::alloc::{AllocError, Global};
use std::mem::replace;

/// A side of a cut.
#[derive(Clone, Copy)]
struct Side {
    column: Col,
    k: i128,
    is_second: bool,
}

impl Side {
    /// The bound that holds there; `None` where a number would not fit.
    fn bound(self) -> Option<Bound> {
        let first = Bound {
            column: self.column,
            is_turned: false,
            k: self.k,
        };
        if self.is_second {
            first.opposite()
        } else {
            Some(first)
        }
    }
}

/// The walk along a tree: the rows that hold where it is, and the nodes made so far.
#[derive(Drop)]
struct Shrinking {
    alloc: Global,
    columns: u32,
    /// How many rows the system has.
    given: u32,
    /// How many lemmas come after them.
    lemmas: u32,
    /// Those of the system, tightened, the lemmas, and then those of the sides.
    rows: Vec<Row>,
    order: Order,
    sides: Vec<Side>,
    nodes: Vec<Node>,
    /// How many rows may still be looked at.
    work: u64,
}

impl Shrinking {
    /// Takes the nodes of a tree, and hands over those that were made; `None` where it has cases, or a number would not fit.
    fn take_all(&mut self, nodes: &[Node]) -> Result<Option<Vec<Node>>, AllocError> {
        for node in nodes {
            if !self.take(node)? {
                return Ok(None);
            }
        }
        Ok(Some(replace(&mut self.nodes, Vec::new(self.alloc))))
    }

    /// Takes a node. False where it is of cases, or a number would not fit.
    fn take(&mut self, node: &Node) -> Result<bool, AllocError> {
        match node {
            Node::Leaf(parts) => self.shrink(parts),
            Node::Cut { col, k } => {
                self.nodes.push(node.copy()?)?;
                self.enter(Side {
                    column: *col,
                    k: *k,
                    is_second: false,
                })
            }
            Node::Cases(_) => Ok(false),
        }
    }

    /// Enters a side of a cut. False where a number would not fit.
    fn enter(&mut self, side: Side) -> Result<bool, AllocError> {
        let Some(bound) = side.bound() else {
            return Ok(false);
        };
        let Some(row) = bound.row(self.alloc)? else {
            return Ok(false);
        };
        let number = u32::try_from(self.rows.len()).unwrap_or(u32::MAX);
        self.rows.push(row)?;
        self.order.push_beside(side.column, number)?;
        self.sides.push(side)?;
        Ok(true)
    }

    /// Takes a leaf, and goes on to the side after it. False where a number would not fit.
    fn shrink(&mut self, parts: &[(u32, i128)]) -> Result<bool, AllocError> {
        let late = {
            let moved = moved_parts(self.alloc, parts, self.given, self.lemmas)?;
            self.late_parts(&moved)?
        };
        self.nodes.push(Node::Leaf(late))?;
        self.go_on()
    }

    /// The parts that are to refute the rows at hand as given ones do, without the rows that they do not need.
    fn late_parts(&mut self, parts: &[(u32, i128)]) -> Result<Parts, AllocError> {
        let order = self.order.numbers()?;
        late_leaf(
            self.alloc,
            &self.rows,
            self.columns,
            &order,
            parts,
            &mut self.work,
        )
    }

    /// Goes on to the side after a leaf. False where a number would not fit.
    fn go_on(&mut self) -> Result<bool, AllocError> {
        for _side in 0..self.sides.len() {
            let _row = self.rows.pop();
            self.order.pop();
            let Some(side) = self.sides.pop() else {
                break;
            };
            if !side.is_second {
                return self.enter(Side {
                    is_second: true,
                    ..side
                });
            }
        }
        Ok(true)
    }
}

/// The parts with the numbers from one on raised.
pub(crate) fn moved_parts(
    alloc: Global,
    parts: &[(u32, i128)],
    from: u32,
    by: u32,
) -> Result<Parts, AllocError> {
    let mut moved = Vec::with_capacity(alloc, parts.len())?;
    for (number, multiplier) in parts {
        let number = if *number < from {
            *number
        } else {
            number.saturating_add(by)
        };
        moved.push((number, *multiplier))?;
    }
    Ok(moved)
}

/// The nodes of a tree whose leaves go without the first rows of an order; `None` where it has cases, or a number would not fit. The
/// rows are those of the system, tightened, and then lemmas, so many.
pub(crate) fn shrunk(
    alloc: Global,
    columns: u32,
    rows: Vec<Row>,
    lemmas: u32,
    order: Order,
    refutation: &Refutation,
    work: u64,
) -> Result<Option<Vec<Node>>, AllocError> {
    let count = u32::try_from(rows.len()).unwrap_or(u32::MAX);
    let mut shrinking = Shrinking {
        alloc,
        columns,
        given: count.saturating_sub(lemmas),
        lemmas,
        rows,
        order,
        sides: Vec::new(alloc),
        nodes: Vec::new(alloc),
        work,
    };
    shrinking.take_all(refutation.nodes())
}
