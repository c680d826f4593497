//! Rows of lives: each line of a product is of one event in one zone, is judged by the rows of the
//! board, and the life that it leaves, or its breach, is printed.

pub mod answers;
pub mod script;
pub mod words;
