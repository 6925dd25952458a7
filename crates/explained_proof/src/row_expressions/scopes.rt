//! Where a clause stands, and what its columns are called there.

ghost use Rattle.std.specs.Prelude.{◌≡◌, IfOk, slice_get};
ghost use Rattle.std.specs.Option.{option_map};
ghost use Rattle.boogie_tree.specs.View as tree;
ghost use Rattle.explained_proof.specs.RowExpressions.Scopes as spec;
ghost use Rattle.explained_proof.specs.RowExpressions.Views as view;

use crate::built_expressions::{old, variable};
use boogie_tree::{Column, Expr, Text, Ty, VarInfo};
use std::alloc::{AllocError, Global};

/// Where a fact is to be said.
#[derive(Clone, Copy)]
pub enum Position {
    /// In a `requires`.
    Requires,
    /// In an `ensures`.
    Ensures,
    /// In an `invariant` or an `assert`.
    Body,
}

/// How a column is called.
#[derive(Clone, Copy)]
pub enum Voice {
    /// By its name.
    Plain,
    /// By its name in `old`.
    InOld,
}

/// The columns of a procedure where a fact is to be said.
#[derive(Clone, Copy)]
pub struct Scope<'a> {
    pub frame: &'a [(Column, VarInfo)],
    /// How many parameters and results the procedure has; they come first among the locals.
    pub params: u32,
    pub results: u32,
    pub position: Position,
    /// Whether the fact is the premise of a clause, about the entry of the frame. What cannot be said there is false, and elsewhere true.
    pub premise: bool,
}

/// Whether the name is that of a hidden local, which no program has.
fn is_hidden_name(name: &[u8]) -> bool
    ensures { result ≡ spec.is_hidden_name name.now }
{
    name.len() >= 2 && name[0] == b'h' && name[1] == b':'
}

/// The text before the name of a boolean column whose number is said.
fn opening(voice: Voice) -> &'static [u8]
    ensures { result.now ≡ spec.opening voice }
{
    match voice {
        Voice::Plain => b"(if ",
        Voice::InOld => b"(if old(",
    }
}

/// The text behind that name.
fn closing(voice: Voice) -> &'static [u8]
    ensures { result.now ≡ spec.closing voice }
{
    match voice {
        Voice::Plain => b" then 1 else 0)",
        Voice::InOld => b") then 1 else 0)",
    }
}

/// The text of the number that a boolean column stands for.
fn number_text(alloc: Global, name: &[u8], voice: Voice) -> Result<Text, AllocError>
    ensures { IfOk result (λ t. t ≡ spec.number_text name.now voice) }
{
    let mut text = Vec::new(alloc);
    text.extend_from_slice(opening(voice))?;
    text.extend_from_slice(name)?;
    text.extend_from_slice(closing(voice))?;
    Ok(Text::new(text))
}

/// The variable of that name, or its value at the entry.
fn spoken(alloc: Global, name: Text, voice: Voice) -> Result<Expr, AllocError>
    ensures { IfOk result (λ e. tree.expression e ≡ spec.spoken name voice) }
{
    match voice {
        Voice::Plain => Ok(variable(name)),
        Voice::InOld => old(alloc, variable(name)),
    }
}

/// The number that a column stands for. Our language has no word for that of a boolean column, so the tree has a name whose text it is.
fn number_spoken(alloc: Global, info: &VarInfo, voice: Voice) -> Result<Expr, AllocError>
    ensures { IfOk result (λ e. tree.expression e ≡ spec.number_spoken info.now voice) }
{
    match info.ty {
        Ty::Bool => Ok(variable(number_text(alloc, info.name.bytes(), voice)?)),
        Ty::Int => spoken(alloc, info.name.copy()?, voice),
    }
}

impl<'a> Scope<'a> {
    /// Whether the local of that number and name is seen.
    fn sees(&self, local: u32, name: &[u8]) -> bool
        ensures { result ≡ spec.sees (view.scope self.now) local name.now }
    {
        match self.position {
            Position::Requires => local < self.params,
            Position::Ensures => {
                u64::from(local) < u64::from(self.params) + u64::from(self.results)
            }
            Position::Body => !is_hidden_name(name),
        }
    }

    /// Whether the local keeps the value that it has at the entry, where that is asked.
    fn stays(&self, local: u32) -> bool
        ensures { result ≡ spec.stays (view.scope self.now) local }
    {
        !self.premise || local < self.params
    }

    /// Whether the column is a local that is seen, of that name.
    fn is_seen_local(&self, name: &[u8], column: &(Column, VarInfo)) -> bool
        ensures { result ≡ spec.is_seen_local (view.scope self.now) name.now column.now }
    {
        match column.0 {
            Column::Local(local) => column.1.name.bytes() == name && self.sees(local, name),
            Column::Global(_) | Column::Old(_) => false,
        }
    }

    /// Whether a local that is seen has that name.
    fn hides(&self, name: &[u8]) -> bool
        ensures { result ≡ spec.hides (view.scope self.now) name.now }
    {
        for column in self.frame {
            if self.is_seen_local(name, column) {
                return true;
            }
        }
        false
    }

    /// Whether the fact is about the entry of the frame, where the globals have their old values.
    pub fn is_of_entry(&self) -> bool
        ensures { result ≡ spec.is_of_entry (view.scope self.now) }
    {
        if self.premise {
            return true;
        }
        match self.position {
            Position::Requires => true,
            Position::Ensures | Position::Body => false,
        }
    }

    /// How the value of a global at the entry is called.
    fn voice_of_old(&self) -> Voice
        ensures { result ≡ spec.voice_of_old (view.scope self.now) }
    {
        if self.is_of_entry() {
            Voice::Plain
        } else {
            Voice::InOld
        }
    }

    /// How a column is called; none where it cannot be said.
    fn voice(&self, column: &(Column, VarInfo)) -> Option<Voice>
        ensures { result ≡ spec.voice (view.scope self.now) column.now }
    {
        let name = column.1.name.bytes();
        match column.0 {
            Column::Local(local) => {
                if self.sees(local, name) && self.stays(local) {
                    Some(Voice::Plain)
                } else {
                    None
                }
            }
            Column::Global(_) => {
                if self.hides(name) {
                    None
                } else {
                    Some(Voice::Plain)
                }
            }
            Column::Old(_) => {
                if self.hides(name) {
                    None
                } else {
                    Some(self.voice_of_old())
                }
            }
        }
    }

    /// The column of that number.
    fn column(&self, number: u32) -> Option<&'a (Column, VarInfo)>
        ensures { option_map (λ c. c.now) result ≡ slice_get self.now.frame.now number }
    {
        self.frame.get(number as usize)
    }

    /// The column by which one is called where the fact is about the entry: what a global had there is the global. The constants and globals are
    /// the first columns of a frame.
    pub fn entry_column(&self, number: u32) -> u32
        ensures { result ≡ spec.entry_column (view.scope self.now) number }
    {
        match self.column(number) {
            Some((Column::Old(global), _)) => *global,
            _ => number,
        }
    }

    /// Whether the column is boolean.
    pub fn is_truth(&self, number: u32) -> bool
        ensures { result ≡ spec.is_truth (view.scope self.now) number }
    {
        match self.column(number) {
            Some((_, info)) => matches!(info.ty, Ty::Bool),
            None => false,
        }
    }

    /// Whether the column is a global that may change, or what one had at the entry.
    pub fn may_change(&self, number: u32) -> bool
        ensures { result ≡ spec.may_change (view.scope self.now) number }
    {
        match self.column(number) {
            Some((Column::Global(_), info)) => !info.constant,
            Some((Column::Old(_), _)) => true,
            _ => false,
        }
    }

    /// Whether the column can be said.
    pub fn can_say(&self, number: u32) -> bool
        ensures { result ≡ spec.can_say (view.scope self.now) number }
    {
        match self.column(number) {
            Some(column) => self.voice(column).is_some(),
            None => false,
        }
    }

    /// The column of that number as an expression; none where it cannot be said.
    pub fn said(&self, alloc: Global, number: u32) -> Result<Option<Expr>, AllocError>
        ensures { IfOk result (λ o. option_map tree.expression o ≡ spec.said (view.scope self.now) number) }
    {
        let Some(column) = self.column(number) else {
            return Ok(None);
        };
        match self.voice(column) {
            Some(voice) => Ok(Some(spoken(alloc, column.1.name.copy()?, voice)?)),
            None => Ok(None),
        }
    }

    /// The number that the column of that number stands for; none where it cannot be said.
    pub(crate) fn number_said(&self, alloc: Global, number: u32) -> Result<Option<Expr>, AllocError>
        ensures { IfOk result (λ o. option_map tree.expression o ≡ spec.number_said (view.scope self.now) number) }
    {
        let Some(column) = self.column(number) else {
            return Ok(None);
        };
        match self.voice(column) {
            Some(voice) => Ok(Some(number_spoken(alloc, &column.1, voice)?)),
            None => Ok(None),
        }
    }
}
