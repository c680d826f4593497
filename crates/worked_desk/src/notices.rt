//! Rows of county notices: a script sets the lines of an input, limits, and the reads and writes
//! that fail, and then writes the notices.

pub mod lines;
pub mod runs;
pub mod script;
pub mod steps;
