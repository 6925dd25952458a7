//! What has been lowered of a program, and how parts of it join. Definitions and lemmas alone.
#![tactic(auto)]
