//! The graphs of texts.

use crate::parts::made_graph;
use crate::programs::program_of;
use icfg_lower::lower;
use letter_acts::Icfg;
use std::alloc::Global;

/// The graph of a program.
fn lowered_graph(alloc: Global, text: &str) -> Option<Icfg> {
    let program = program_of(alloc, text)?;
    lower(alloc, &program).ok()
}

/// The graph of a program, or the one whose parts stand behind a line `graph`.
pub(crate) fn graph_of(alloc: Global, text: &str) -> Option<Icfg> {
    match text.strip_prefix("graph\n") {
        Some(parts) => made_graph(alloc, parts),
        None => lowered_graph(alloc, text),
    }
}
