//! What programs share that read a command line: the arguments of a simple command of `clap`, the values that words give to them, and the words and
//! the stack that a program begins with.
#![tactic(auto)]

mod arguments;
mod beginning;
mod reading;

pub use arguments::{bare_command, flag, option, optional, positional};
pub use beginning::{given_words, grow_stack};
pub use reading::{is_set, matched, value};
