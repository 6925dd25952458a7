//! The outside in memory, for tests: it moves as many bytes at a call as it was told, and fails at the calls that
//! were named.

mod calls;
mod mem_shelf;
mod mem_sink;

pub use mem_shelf::MemShelf;
pub use mem_sink::MemSink;
