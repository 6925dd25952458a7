//! Reads programs by the grammar, from symbols.

mod blocks;
mod conditions;
mod declarations;
mod expressions;
mod found;
mod laws;
mod lists;
pub(crate) mod parser;
mod programs;
mod respelled;
mod statements;
mod variables;
