//! Acts with their marks as keys of a table.

ghost use Rattle.std.specs.Prelude.{◌≡◌, map, IfOk};
ghost use Rattle.letter_acts.specs.Acts.{plain_act};
ghost use Rattle.letter_acts.specs.LetterTable.Letters.{marked_act};
ghost use Rattle.letter_acts.specs.LetterTable.Ties.Keys.{plain_key, plain_row, marked_key};

use crate::Act;
use lin_rows::{Row, RowKind};
use std::alloc::{AllocError, Global};

/// A row as a key.
#[derive(Drop, PartialEq, Eq, Hash)]
pub(crate) struct RowKey {
    terms: Vec<(u32, i128)>,
    is_equality: bool,
    bound: i128,
}

/// An act as a key.
#[derive(Drop, PartialEq, Eq, Hash)]
pub(crate) enum ActKey {
    Inside {
        proc: u32,
        written: Vec<u32>,
        helpers: u32,
        rows: Vec<RowKey>,
    },
    Call {
        caller: u32,
        callee: u32,
        helpers: u32,
        rows: Vec<RowKey>,
    },
    Back {
        call: u32,
        targets: Vec<u32>,
    },
}

/// An act with its mark as a key.
#[derive(Drop, PartialEq, Eq, Hash)]
pub(crate) struct MarkedKey {
    act: ActKey,
    is_coarse: bool,
}

fn row_key(alloc: Global, row: &Row) -> Result<RowKey, AllocError>
    ensures { IfOk result (λ k. plain_row k ≡ row.now) }
{
    let terms = Vec::from_slice(alloc, row.terms())?;
    Ok(RowKey {
        terms,
        is_equality: row.kind() == RowKind::Eq,
        bound: row.bound(),
    })
}

fn row_keys(alloc: Global, rows: &[Row]) -> Result<Vec<RowKey>, AllocError>
    ensures { IfOk result (λ ks. map plain_row ks.items ≡ rows.now) }
{
    let mut keys = Vec::with_capacity(alloc, rows.len())?;
    for row in rows {
        keys.push(row_key(alloc, row)?)?;
    }
    Ok(keys)
}

/// The key of an act without its mark.
fn act_key(alloc: Global, act: &Act) -> Result<ActKey, AllocError>
    ensures { IfOk result (λ k. plain_key k ≡ plain_act act.now) }
{
    match act {
        Act::Inside {
            proc,
            written,
            helpers,
            rows,
            ..
        } => Ok(ActKey::Inside {
            proc: *proc,
            written: written.clone()?,
            helpers: *helpers,
            rows: row_keys(alloc, rows)?,
        }),
        Act::Call {
            caller,
            callee,
            helpers,
            rows,
            ..
        } => Ok(ActKey::Call {
            caller: *caller,
            callee: *callee,
            helpers: *helpers,
            rows: row_keys(alloc, rows)?,
        }),
        Act::Back { call, targets } => Ok(ActKey::Back {
            call: *call,
            targets: targets.clone()?,
        }),
    }
}

/// The key of an act with its mark.
pub(crate) fn marked_key(alloc: Global, act: &Act) -> Result<MarkedKey, AllocError>
    ensures { IfOk result (λ k. marked_key k ≡ marked_act act.now) }
{
    Ok(MarkedKey {
        act: act_key(alloc, act)?,
        is_coarse: act.is_coarse(),
    })
}
