//! How the steps of a letter are made of its rows: which column gets its number when depends on the rows alone, and not on numbers.

use crate::concrete_walks::letters::{
    Entry, Form, Kind, Letters, Pair, Procedure, Rest, Says, Span, Step, members,
};
use boogie_tree::{Column, Ty};
use letter_acts::Frame;
use lin_rows::{Row, RowKind};
use std::alloc::{AllocError, Global};

/// How many terms a row has at most that is narrow.
const MOST_NARROW_TERMS: usize = 1 << 20;

/// The rows of a letter while its steps are made.
#[derive(Drop)]
struct Draft<'a> {
    rows: &'a [Row],
    /// Whether a row needs no more test.
    done: Vec<bool>,
    /// How many columns the frame has.
    known: usize,
    /// The types of the columns behind it, whether they had no number at first, and whether they have none yet.
    sought: Vec<(Ty, bool, bool)>,
}

/// Which columns of a row have no number yet.
#[derive(Clone, Copy)]
enum Open {
    Nothing,
    /// This column of those that are sought, with this coefficient.
    One(usize, i128),
    Several,
}

impl<'a> Draft<'a> {
    fn new(alloc: Global, rows: &'a [Row], known: usize) -> Result<Self, AllocError> {
        Ok(Draft {
            rows,
            done: vec![in alloc; false; rows.len()]?,
            known,
            sought: Vec::new(alloc),
        })
    }

    /// Seeks one column more, which has a number already or not.
    fn seek(&mut self, ty: Ty, is_open: bool) -> Result<(), AllocError> {
        self.sought.push((ty, is_open, is_open))?;
        Ok(())
    }

    /// Seeks so many helpers more.
    fn seek_helpers(&mut self, helpers: u32) -> Result<(), AllocError> {
        for _ in 0..helpers {
            self.seek(Ty::Int, true)?;
        }
        Ok(())
    }

    /// The number of a column of those that are sought, among all.
    fn column(&self, place: usize) -> usize {
        self.known.saturating_add(place)
    }

    /// Which columns of a row have no number yet.
    fn open(&self, row: &Row) -> Open {
        let mut open = Open::Nothing;
        for &(column, coefficient) in row.terms() {
            if let Some(place) = (column as usize).checked_sub(self.known) {
                if !matches!(self.sought.get(place), Some((_, _, false))) {
                    open = match open {
                        Open::Nothing => Open::One(place, coefficient),
                        _ => Open::Several,
                    };
                }
            }
        }
        open
    }

    /// Notes that a column has its number.
    fn close(&mut self, place: usize) {
        if let Some(sought) = self.sought.get_mut(place) {
            sought.2 = false;
        }
    }

    /// Notes that a row needs no more test.
    fn finish(&mut self, row: usize) {
        if let Some(done) = self.done.get_mut(row) {
            *done = true;
        }
    }

    /// Seeks what an inside letter seeks, and adds its moves and its steps.
    fn inside(
        &mut self,
        letters: &mut Letters,
        frame: &Frame,
        written: &[u32],
        helpers: u32,
    ) -> Result<Form, AllocError> {
        let first = letters.moves.len();
        for (place, &column) in written.iter().enumerate() {
            let column = column as usize;
            letters.moves.push((self.column(place), column))?;
            let ty = match frame.columns.get(column) {
                Some(known) => known.1.ty,
                None => Ty::Int,
            };
            self.seek(ty, true)?;
        }
        let moves = Span::new(first, letters.moves.len());
        self.form(letters, Kind::Inside, helpers, moves)
    }

    /// Seeks what a call seeks, and adds its steps.
    fn call(
        &mut self,
        letters: &mut Letters,
        callee: Callee,
        helpers: u32,
    ) -> Result<Form, AllocError> {
        for (column, info) in &callee.frame.columns {
            let is_open = matches!(column, Column::Local(_)) && info.constant;
            self.seek(info.ty, is_open)?;
        }
        let none = Span::new(0, 0);
        self.form(letters, Kind::Call(callee.procedure), helpers, none)
    }

    /// Seeks the helpers of a letter, adds its steps, and answers what it does, which has these moves.
    fn form(
        &mut self,
        letters: &mut Letters,
        kind: Kind,
        helpers: u32,
        moves: Span,
    ) -> Result<Form, AllocError> {
        self.seek_helpers(helpers)?;
        let first = letters.steps.len();
        self.add_steps(letters)?;
        Ok(Form {
            kind,
            known: self.known,
            all: self.known.saturating_add(self.sought.len()),
            steps: Span::new(first, letters.steps.len()),
            moves,
        })
    }

    /// Adds steps until each column has its number and each row is tested.
    fn add_steps(&mut self, letters: &mut Letters) -> Result<(), AllocError> {
        // each turn but the last gives a column its number
        for _ in 0..=self.sought.len() {
            if self.follow(letters)? {
                continue;
            }
            let Some(place) = self.open_place() else {
                break;
            };
            self.choose(letters, place)?;
        }
        for (place, &(ty, was_open, _)) in self.sought.iter().enumerate() {
            if was_open && ty == Ty::Bool {
                let column = self.column(place);
                letters.steps.push(Step::IsBoolean { column })?;
            }
        }
        Ok(())
    }

    /// Adds the steps by which equalities give columns their numbers, and tests of rows whose columns all have numbers. Answers
    /// whether a column got one.
    fn follow(&mut self, letters: &mut Letters) -> Result<bool, AllocError> {
        let rows = self.rows;
        let mut found = false;
        for (number, row) in rows.iter().enumerate() {
            if matches!(self.done.get(number), Some(false))
                && self.follow_row(letters, number, row)?
            {
                found = true;
            }
        }
        Ok(found)
    }

    /// The same for one row.
    fn follow_row(
        &mut self,
        letters: &mut Letters,
        number: usize,
        row: &Row,
    ) -> Result<bool, AllocError> {
        let (forced, says) = match (self.open(row), row.kind()) {
            (Open::Nothing, RowKind::Le) => (None, Says::NotNegative),
            (Open::Nothing, RowKind::Eq) => (None, Says::Zero),
            (Open::One(place, coefficient), RowKind::Eq) => {
                let column = self.column(place);
                self.close(place);
                let says = Says::Forces {
                    column,
                    coefficient,
                };
                (Some(column), says)
            }
            _ => return Ok(false),
        };
        let rest = add_rest(letters, row, forced)?;
        let step = row_step(letters, rest, says);
        letters.steps.push(step)?;
        self.finish(number);
        Ok(forced.is_some())
    }

    /// The place of a column without a number: one that is alone in a row if there is one, else the first.
    fn open_place(&self) -> Option<usize> {
        for row in self.rows {
            if let Open::One(place, _) = self.open(row) {
                return Some(place);
            }
        }
        for (place, column) in self.sought.iter().enumerate() {
            if column.2 {
                return Some(place);
            }
        }
        None
    }

    /// Adds the step that gives a column a number within the bounds of the inequalities in which it is alone, if there are any.
    fn choose(&mut self, letters: &mut Letters, place: usize) -> Result<(), AllocError> {
        let first = letters.bounds.len();
        self.add_bounds(letters, place)?;
        let bounds = Span::new(first, letters.bounds.len());
        let column = self.column(place);
        let ty = match self.sought.get(place) {
            Some(sought) => sought.0,
            None => Ty::Int,
        };
        letters.steps.push(if bounds.is_empty() {
            Step::Free { column, ty }
        } else {
            Step::Chosen { column, ty, bounds }
        })?;
        self.close(place);
        Ok(())
    }

    /// Adds the bounds of the inequalities in which the column is alone. They need no more test.
    fn add_bounds(&mut self, letters: &mut Letters, place: usize) -> Result<(), AllocError> {
        let rows = self.rows;
        for (number, row) in rows.iter().enumerate() {
            if let Open::One(at, coefficient) = self.open(row) {
                if at == place {
                    let rest = add_rest(letters, row, Some(self.column(place)))?;
                    letters.bounds.push((coefficient, rest))?;
                    self.finish(number);
                }
            }
        }
        Ok(())
    }
}

/// What is left of a row's bound without its terms, but for that of one column.
fn add_rest(letters: &mut Letters, row: &Row, without: Option<usize>) -> Result<Rest, AllocError> {
    let first = letters.terms.len();
    let mut is_narrow = row.terms().len() <= MOST_NARROW_TERMS && is_narrow_bound(row.bound());
    for &(column, coefficient) in row.terms() {
        let column = column as usize;
        if without != Some(column) {
            letters.terms.push((column, coefficient))?;
            let narrow = i32::try_from(coefficient).ok();
            is_narrow &= narrow.is_some();
            letters
                .narrow_terms
                .push((column, i64::from(narrow.unwrap_or(0))))?;
        }
    }
    let terms = Span::new(first, letters.terms.len());
    Ok(Rest {
        bound: row.bound(),
        terms,
        is_narrow,
    })
}

/// The step of a row, the last terms of all being those of its rest.
fn row_step(letters: &Letters, rest: Rest, says: Says) -> Step {
    match pair_of(letters, &rest, &says) {
        Some(pair) => Step::Short { pair, rest, says },
        None => Step::Row { rest, says },
    }
}

/// The rest as a pair, where it is narrow and has two terms at most.
fn pair_of(letters: &Letters, rest: &Rest, says: &Says) -> Option<Pair> {
    if !rest.is_narrow {
        return None;
    }
    let bound = i64::try_from(rest.bound).ok()?;
    let (first, second) = match (members(&letters.narrow_terms, rest.terms), says) {
        (&[], Says::Forces { column, .. }) => ((*column, 0), (*column, 0)),
        (&[first], _) => (first, (first.0, 0)),
        (&[first, second], _) => (first, second),
        _ => return None,
    };
    Some(Pair {
        bound,
        first: first.0,
        first_coefficient: first.1,
        second: second.0,
        second_coefficient: second.1,
    })
}

/// Whether the bound of a row is that of one that may be narrow.
fn is_narrow_bound(bound: i128) -> bool {
    i64::try_from(bound).is_ok()
}

/// What is done at the start: each column of its frame gets a free number, and an old one that of its global.
pub(crate) fn add_start(letters: &mut Letters, frame: &Frame) -> Result<Form, AllocError> {
    let (first, first_move) = (letters.steps.len(), letters.moves.len());
    for (place, (column, info)) in frame.columns.iter().enumerate() {
        letters.steps.push(Step::Free {
            column: place,
            ty: info.ty,
        })?;
        if let Column::Old(global) = column {
            letters.steps.push(Step::Copied {
                column: place,
                from: *global as usize,
            })?;
        }
    }
    Ok(Form {
        kind: Kind::Inside,
        known: 0,
        all: frame.columns.len(),
        steps: Span::new(first, letters.steps.len()),
        moves: Span::new(first_move, first_move),
    })
}

/// What an inside letter does: it seeks the written columns, and moves what was found there.
pub(crate) fn add_inside(
    alloc: Global,
    letters: &mut Letters,
    frame: &Frame,
    written: &[u32],
    helpers: u32,
    rows: &[Row],
) -> Result<Form, AllocError> {
    let mut draft = Draft::new(alloc, rows, frame.columns.len())?;
    draft.inside(letters, frame, written, helpers)
}

/// A procedure, as its calls and returns see it.
#[derive(Clone, Copy)]
pub(crate) struct Callee<'a> {
    pub frame: &'a Frame,
    pub procedure: Procedure,
}

/// What calls and returns of a procedure share: the globals and old columns are as the caller's globals, the parameters are sought, and
/// the other locals are free.
pub(crate) fn add_procedure(letters: &mut Letters, frame: &Frame) -> Result<Procedure, AllocError> {
    let (first, first_move) = (letters.entries.len(), letters.moves.len());
    for (place, (column, info)) in frame.columns.iter().enumerate() {
        if let Column::Global(global) = column {
            letters.moves.push((place, *global as usize))?;
        }
        letters.entries.push(match column {
            Column::Global(global) | Column::Old(global) => Entry::Global(*global as usize),
            Column::Local(_) if info.constant => Entry::Sought,
            Column::Local(_) => Entry::Free(info.ty),
        })?;
    }
    Ok(Procedure {
        entries: Span::new(first, letters.entries.len()),
        globals: Span::new(first_move, letters.moves.len()),
    })
}

/// What a call does: it seeks the callee's frame.
pub(crate) fn add_call(
    alloc: Global,
    letters: &mut Letters,
    caller: &Frame,
    callee: Callee,
    helpers: u32,
    rows: &[Row],
) -> Result<Form, AllocError> {
    let mut draft = Draft::new(alloc, rows, caller.columns.len())?;
    draft.call(letters, callee, helpers)
}

/// What a return does: it moves the results of the callee.
pub(crate) fn add_return(
    letters: &mut Letters,
    callee: Callee,
    targets: &[u32],
) -> Result<Form, AllocError> {
    let first = letters.moves.len();
    let mut targets = targets.iter();
    for (place, (column, info)) in callee.frame.columns.iter().enumerate() {
        if matches!(column, Column::Local(_)) && !info.constant {
            let Some(&target) = targets.next() else {
                break;
            };
            letters.moves.push((place, target as usize))?;
        }
    }
    let steps = letters.steps.len();
    Ok(Form {
        kind: Kind::Back(callee.procedure),
        known: callee.frame.columns.len(),
        all: callee.frame.columns.len(),
        steps: Span::new(steps, steps),
        moves: Span::new(first, letters.moves.len()),
    })
}
