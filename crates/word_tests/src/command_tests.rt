//! Tests of files and of the standard output, and of texts in memory. The cases of the command line are those of `command_table`.
#![tactic(auto)]

#[cfg(test)]
mod files;
