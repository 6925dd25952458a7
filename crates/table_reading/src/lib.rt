//! What the tables of cases read and make alike: words of a line, numbers, lines of a text, and lists. What is no number counts as 0: the answers are compared.
#![tactic(auto)]

mod lists;
mod numerals;
mod texts;

pub use lists::keep;
pub use numerals::{number, numbered, numbers, three, two, value, values};
pub use texts::{first_word, parted, push_line};
