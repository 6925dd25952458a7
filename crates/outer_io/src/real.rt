//! The outside of the system: its files and its standard output. These tell no content.

mod file_shelf;
mod std_sink;

pub use file_shelf::FileShelf;
pub use std_sink::StdSink;
