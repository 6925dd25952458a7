//! Annotations from numbers: predicates, triples with their refutations, nodes and steps are spelled as lines that name them again.
#![tactic(auto)]

mod columns;
mod drafts;
mod nodes;
mod numerals;
mod predicates;
mod refutations;
mod spelling;
mod steps;
mod triples;

pub use columns::column_text;
pub use drafts::Shown;
pub use numerals::integer;
pub use refutations::node_lines;
pub use spelling::spell;
