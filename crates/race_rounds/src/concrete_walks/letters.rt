//! What letters do to numbers, step by step.

use crate::concrete_walks::drafting::{
    Callee, add_call, add_inside, add_procedure, add_return, add_start,
};
use boogie_tree::Ty;
use letter_acts::{Act, Frame, Icfg};
use std::alloc::{AllocError, Global};

/// Members of a list that stand side by side.
#[derive(Clone, Copy)]
pub(crate) struct Span {
    pub first: usize,
    pub end: usize,
}

impl Span {
    /// Those from a place up to another.
    pub fn new(first: usize, end: usize) -> Self {
        Span { first, end }
    }

    /// Whether there are none.
    pub fn is_empty(self) -> bool {
        self.first >= self.end
    }

    /// How many there are.
    pub fn len(self) -> usize {
        self.end.saturating_sub(self.first)
    }
}

/// The members that stand there.
pub(crate) fn members<T>(items: &[T], span: Span) -> &[T] {
    if span.is_empty() {
        return &[];
    }
    items.get(span.first..span.end).unwrap_or(&[])
}

/// A bound, from which terms are taken away.
#[derive(Clone, Copy)]
pub(crate) struct Rest {
    pub bound: i128,
    pub terms: Span,
    /// Whether the bound, the coefficients and the count of the terms are so small that no sum of products with numbers of 64 bits
    /// passes 128 bits.
    pub is_narrow: bool,
}

/// A bound, from which two terms at most are taken away, and which all fits 64 bits. Where a term is missing a coefficient is 0.
#[derive(Clone, Copy)]
pub(crate) struct Pair {
    pub bound: i64,
    pub first: usize,
    pub first_coefficient: i64,
    pub second: usize,
    pub second_coefficient: i64,
}

/// What a row says of what is left of its bound.
#[derive(Clone, Copy)]
pub(crate) enum Says {
    /// It is not negative.
    NotNegative,
    /// It is 0.
    Zero,
    /// It is the coefficient times the number of the column, which gets its number so.
    Forces { column: usize, coefficient: i128 },
}

/// A step. The columns are those of the present frame, and behind them those that the letter seeks.
#[derive(Clone, Copy)]
pub(crate) enum Step {
    /// A column gets the number of another.
    Copied { column: usize, from: usize },
    /// A column gets a free number of its type.
    Free { column: usize, ty: Ty },
    /// A row holds.
    Row { rest: Rest, says: Says },
    /// A narrow row with two terms at most holds.
    Short { pair: Pair, rest: Rest, says: Says },
    /// A column gets a number within bounds.
    Chosen { column: usize, ty: Ty, bounds: Span },
    /// The number of a column is 0 or 1.
    IsBoolean { column: usize },
}

/// How a column of a callee's frame gets its number.
#[derive(Clone, Copy)]
pub(crate) enum Entry {
    /// It is that of a global of the caller.
    Global(usize),
    /// It is a free number of its type.
    Free(Ty),
    /// The rows of the call say it.
    Sought,
}

/// What the calls and the returns of a procedure share: how its columns get their numbers, and which of its columns are globals.
#[derive(Clone, Copy)]
pub(crate) struct Procedure {
    pub entries: Span,
    pub globals: Span,
}

/// What a letter does to the frames.
#[derive(Clone, Copy)]
pub(crate) enum Kind {
    Inside,
    Call(Procedure),
    Back(Procedure),
    /// There is no such letter.
    Missing,
}

/// What a letter does: its steps, and then it moves numbers to columns, within the frame or, at a return, to the caller's.
#[derive(Clone, Copy)]
pub(crate) struct Form {
    pub kind: Kind,
    /// How many columns the present frame has.
    pub known: usize,
    /// And how many there are with those that the letter seeks.
    pub all: usize,
    pub steps: Span,
    pub moves: Span,
}

/// What all letters of a program do.
#[derive(Drop)]
pub(crate) struct Letters {
    /// What is done at the start, to the columns of no frame.
    start: Option<Form>,
    /// By the letter's number.
    forms: Vec<Form>,
    /// By the procedure's number.
    procedures: Vec<Procedure>,
    /// How many columns there are at most with those that a letter seeks.
    widest: usize,
    pub entries: Vec<Entry>,
    pub steps: Vec<Step>,
    pub terms: Vec<(usize, i128)>,
    /// The same terms for the rests that are narrow; what stands for other ones is of no use.
    pub narrow_terms: Vec<(usize, i64)>,
    /// Coefficients of a column, and what is left of the bounds of inequalities for it.
    pub bounds: Vec<(i128, Rest)>,
    pub moves: Vec<(usize, usize)>,
}

impl Letters {
    /// No letters.
    pub fn new(alloc: Global) -> Self {
        Letters {
            start: None,
            forms: Vec::new(alloc),
            procedures: Vec::new(alloc),
            widest: 0,
            entries: Vec::new(alloc),
            steps: Vec::new(alloc),
            terms: Vec::new(alloc),
            narrow_terms: Vec::new(alloc),
            bounds: Vec::new(alloc),
            moves: Vec::new(alloc),
        }
    }

    /// What is done at the start.
    pub fn start(&self) -> Option<&Form> {
        self.start.as_ref()
    }

    /// How many columns there are at most with those that a letter seeks.
    pub fn widest(&self) -> usize {
        self.widest
    }

    /// What a letter does.
    pub fn form(&self, letter: u32) -> Option<&Form> {
        self.forms.get(letter as usize)
    }

    /// Where the locals of a procedure's frame begin: behind its globals and its old columns.
    pub fn locals(&self, procedure: &Procedure) -> usize {
        let mut count: usize = 0;
        for entry in members(&self.entries, procedure.entries) {
            if matches!(entry, Entry::Global(_)) {
                count = count.wrapping_add(1);
            }
        }
        count
    }

    /// Adds what is done at the start of a program, and what each of its letters does.
    pub fn add_all(&mut self, alloc: Global, icfg: &Icfg) -> Result<(), AllocError> {
        self.add_procedures(icfg.frames())?;
        if let Some(proc) = item(icfg.place_procs(), icfg.nwa().start()) {
            if let Some(frame) = item(icfg.frames(), *proc) {
                let form = add_start(self, frame)?;
                self.widest = self.widest.max(form.all);
                self.start = Some(form);
            }
        }
        for act in icfg.acts() {
            let form = self.formed(alloc, icfg, act)?;
            self.widest = self.widest.max(form.all);
            self.forms.push(form)?;
        }
        Ok(())
    }

    /// Adds what calls and returns of each procedure share.
    fn add_procedures(&mut self, frames: &[Frame]) -> Result<(), AllocError> {
        for frame in frames {
            let procedure = add_procedure(self, frame)?;
            self.procedures.push(procedure)?;
        }
        Ok(())
    }

    /// What a letter with that act does.
    fn formed(&mut self, alloc: Global, icfg: &Icfg, act: &Act) -> Result<Form, AllocError> {
        match act {
            Act::Inside {
                proc,
                written,
                helpers,
                rows,
                ..
            } => match item(icfg.frames(), *proc) {
                Some(frame) => add_inside(alloc, self, frame, written, *helpers, rows),
                None => Ok(missing()),
            },
            Act::Call {
                caller,
                callee,
                helpers,
                rows,
                ..
            } => match (item(icfg.frames(), *caller), self.callee(icfg, *callee)) {
                (Some(frame), Some(callee)) => {
                    add_call(alloc, self, frame, callee, *helpers, rows)
                }
                _ => Ok(missing()),
            },
            Act::Back { call, targets } => match item(icfg.acts(), *call) {
                Some(Act::Call { callee, .. }) => match self.callee(icfg, *callee) {
                    Some(callee) => add_return(self, callee, targets),
                    None => Ok(missing()),
                },
                _ => Ok(missing()),
            },
        }
    }

    /// The procedure with a number, as its calls and returns see it.
    fn callee<'a>(&self, icfg: &'a Icfg, number: u32) -> Option<Callee<'a>> {
        let procedure = *item(self.procedures.as_slice(), number)?;
        let frame = item(icfg.frames(), number)?;
        Some(Callee { frame, procedure })
    }
}

/// The form of a letter that there is not.
fn missing() -> Form {
    let none = Span::new(0, 0);
    Form {
        kind: Kind::Missing,
        known: 0,
        all: 0,
        steps: none,
        moves: none,
    }
}

/// The member with a number.
fn item<T>(items: &[T], number: u32) -> Option<&T> {
    items.get(number as usize)
}
