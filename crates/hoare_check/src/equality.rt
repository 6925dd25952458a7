//! Whether rows are equal.

ghost use Rattle.std.specs.Prelude.{◌≡◌, ◌↔◌, IsTrue};

use lin_rows::{Col, Row, RowKind};

/// Whether the rows are equal.
pub fn is_same_row(a: &Row, b: &Row) -> bool
    ensures { IsTrue result ↔ (a.now ≡ b.now) }
{
    if !same_kind(a.kind(), b.kind()) || !same_number(a.bound(), b.bound()) {
        return false;
    }
    same_terms(a.terms(), b.terms())
}

fn same_terms(a: &[(Col, i128)], b: &[(Col, i128)]) -> bool
    ensures { IsTrue result ↔ (a.now ≡ b.now) }
{
    if a.len() != b.len() {
        return false;
    }
    for (i, term) in a.iter().enumerate() {
        if !same_term(*term, b[i]) {
            return false;
        }
    }
    true
}

fn same_term(a: (Col, i128), b: (Col, i128)) -> bool
    ensures { IsTrue result ↔ (a ≡ b) }
{
    a.0 == b.0 && a.1 == b.1
}

fn same_kind(a: RowKind, b: RowKind) -> bool
    ensures { IsTrue result ↔ (a ≡ b) }
{
    a == b
}

fn same_number(a: i128, b: i128) -> bool
    ensures { IsTrue result ↔ (a ≡ b) }
{
    a == b
}
