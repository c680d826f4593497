//! Rows of an office: a script sets the settings and the readings of the clock, and sends requests
//! and queries, whose replies are printed.

pub mod answers;
pub mod script;
pub mod steps;
