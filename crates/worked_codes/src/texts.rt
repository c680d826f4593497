//! Rows of settings, headlines and product texts: what the libraries return for each line is
//! printed.

pub mod answers;
pub mod lines;
pub mod plans;
pub mod products;
pub mod settings;
