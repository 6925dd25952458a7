//! Reads cases of the command line from standard input, runs the program on each over a shelf and a sink in memory, and prints the answers.
//!
//! A line `# WHAT` begins a case, and `## WHAT` its next step; both are printed. A shelf has the texts `p` and `q`, which a case begins without
//! bytes, and which these lines lengthen:
//!
//! - `p LINE`, `q LINE`: a line;
//! - `part p TEXT`: a text without the end of a line;
//! - `lines q LINE/LINE/..`: lines;
//! - `bytes p COUNT BYTE ..`: so many times these bytes, as numbers.
//!
//! These lines hold for the next run:
//!
//! - `- LINE`: the lines of `q` that are this one are left out;
//! - `+ LINE`: in their place stands this one;
//! - `shelf N`, `sink N`: the call of that number on the shelf or on the sink fails;
//! - `gate NAME`: a schedule of several workers is forced, and what is seen of it is shown behind the output: the moments of a worker, a digit each
//!   (1 reading, 2 built, 3 publishing, 4 published, 5 stale, 6 finishing), how many came to a moment, how many entries the history has, and how
//!   many states the automaton of what is kept;
//! - `first N`: only the first lines of the output are shown;
//! - `only L W`: of line L only the first W words are shown, and `*` in place of the others.
//!
//! These lines run the program; of their words, `''` is the empty one:
//!
//! - `run WORDS`: the status, how many races were closed, the words, and the output, in which a line without an end has a backslash there;
//! - `then WORDS`: the same, where `q` is what the last run wrote;
//! - `status WORDS`: the output is not shown;
//! - `each p FROM TO WORDS`: once for each of these lengths of `p`, beyond which it is cut off; with `shelf` or `sink` in place of a text, once for each
//!   of these numbers of the call that fails. An answer is shown where it is not that of the number before.
//!
//! Any other line is printed behind a question mark.
#![tactic(auto)]

mod answers;
mod cases;
mod commands;
mod gates;
mod texts;

use crate::commands::answer_all;
use std::io::{self, Read};

fn main(rt: HostRuntime) -> io::Result<()> {
    let mut text = Vec::new(rt.alloc());
    rt.stdin().read_to_end(&mut text)?;
    answer_all(&rt, &rt, str::from_utf8(&text).unwrap_or("? no text"));
    Ok(())
}
