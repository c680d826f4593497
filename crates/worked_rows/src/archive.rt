//! Rows of archives: a script sets the bytes of an archive, the size of its pieces, a limit, and
//! the reads and writes that fail, and then prints the archive's report or its statistics.

pub mod reader;
pub mod runs;
pub mod script;
pub mod steps;
