//! Rows of codes and product frames: the first word of a line names a reader, the rest is a text
//! for it, and what it reads is printed.

pub mod answers;
pub mod clocks;
pub mod values;
