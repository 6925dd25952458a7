ghost use Rattle.std.specs.Prelude.{◌≡◌, [], map};

use lin_rows::{Col, System};
use nwa_base::Word;
use std::marker::Model;

/// The rows of a word, over versions of the columns of frames: over some graph, which contracts name, they have a whole
/// point exactly where the word is feasible.
#[derive(Drop)]
pub struct PathSystem {
    word: Word,
    system: System,
    row_at: Vec<u32>,
    column_at: Vec<u32>,
    states: Vec<Vec<Col>>,
}

impl Model for PathSystem {
    ghost use Rattle.std.specs.Prelude.{map};
    ghost use Rattle.lin_rows.specs.Systems.{rows_of, groups_of};
    ghost use Rattle.path_rows.specs.Paths.{PlainPath, KeepsPath};

    ghost Value = { PlainPath };

    ghost view = { λ p. record { word = p.word; rows = rows_of p.system; row_at = p.row_at.items; column_at = p.column_at.items; states = map (λ v. v.items) p.states.items } };

    ghost invariant = { λ p. KeepsPath (record { word = p.word; rows = rows_of p.system; row_at = p.row_at.items; column_at = p.column_at.items; states = map (λ v. v.items) p.states.items }) (groups_of p.system) };
}

impl PathSystem {
    ghost use Rattle.std.specs.Prelude.{[], map, length};
    ghost use Rattle.lin_rows.specs.Rows.{RowsBelow};
    ghost use Rattle.lin_rows.specs.Systems.{rows_of, groups_of};
    ghost use Rattle.path_rows.specs.Paths.{IsPath, KeepsPath};

    /// The path of a word.
    pub(crate) fn new(
        word: Word,
        system: System,
        row_at: Vec<u32>,
        column_at: Vec<u32>,
        states: Vec<Vec<Col>>,
    ) -> Self
        requires { KeepsPath (record { word = word; rows = rows_of system; row_at = row_at.items; column_at = column_at.items; states = map (λ v. v.items) states.items }) (groups_of system) }
        ensures { result ≡ record { word = word; rows = rows_of system; row_at = row_at.items; column_at = column_at.items; states = map (λ v. v.items) states.items } }
    {
        PathSystem {
            word,
            system,
            row_at,
            column_at,
            states,
        }
    }

    /// The word.
    pub fn word(&self) -> &Word
        ensures { result.now ≡ self.now.word }
    {
        &self.word
    }

    /// Its rows, as a system without groups, over the columns of the path.
    pub fn system(&self) -> &System
        ensures rows { rows_of result.now ≡ self.now.rows }
        ensures groups { groups_of result.now ≡ [] }
        ensures within { RowsBelow (length self.now.column_at) self.now.rows }
        ensures valid { IsPath self.now }
    {
        &self.system
    }

    /// The number of the letter that made each row, from 1, and 0 for the start.
    pub fn row_at(&self) -> &[u32]
        ensures { result.now ≡ self.now.row_at }
    {
        self.row_at.as_slice()
    }

    /// The number of the letter that made each column, from 1, and 0 for the start.
    pub fn column_at(&self) -> &[u32]
        ensures { result.now ≡ self.now.column_at }
    {
        self.column_at.as_slice()
    }

    /// At each position the versions of the columns of its frame.
    pub fn states(&self) -> &[Vec<Col>]
        ensures { map (λ v. v.items) result.now ≡ self.now.states }
    {
        self.states.as_slice()
    }
}
