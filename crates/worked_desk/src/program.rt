//! Rows of the desk's program: a script sets an input, limits, and the reads and writes that fail,
//! and then runs the program with some words as arguments.

pub mod runs;
pub mod script;
pub mod steps;
pub mod sweeps;
