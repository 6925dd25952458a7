//! Reads programs: the tokens of a text, and programs of the whole language.
#![tactic(auto)]

mod fault;
mod grammar;
mod lexer;
mod literals;
mod printed;
mod symbols;
mod token;
mod whole_text;

pub use fault::{Fault, What, Which};
pub use lexer::{Token, lex};
pub use token::TokenKind;
pub use whole_text::{
    one_program_tree, parentheses_are_needed, parse, printed_programs_are_read_again,
    programs_are_spellable, texts_are_read,
};
