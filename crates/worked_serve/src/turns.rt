//! Rows of turns: a line has the number of threads that wait, and the milliseconds for which
//! another one has the turn. It prints how many waited and how many entries there are at the end.
//! Then two threads add a hundred numbers each to one list.

pub mod entries;
pub mod jobs;
pub mod line;
pub mod pairs;
pub mod threads;
