//! Rows of HTTP calls: a line has the bytes of calls, and how they are read is printed; or it has
//! the parts of an answer, and its bytes are printed.

pub mod bytes;
pub mod script;
