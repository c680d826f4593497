//! Rows of days: a script writes drafts and sends them one after another, and the plan or refusal
//! of each is printed.

pub mod answers;
pub mod days;
pub mod script;
pub mod series;
pub mod steps;
pub mod words;
