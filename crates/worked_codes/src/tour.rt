//! A tour of the libraries: a program's calls of them, with what they return. docs/LIBRARY.md shows
//! these lines.

pub mod codes;
pub mod errors;
pub mod products;
pub mod script;
pub mod streams;
