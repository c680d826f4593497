//! Writes the report of an office's archived texts: a line for each product, the lives of its
//! events, the lines in breach, the gaps in event numbers and the rows at a minute. For the
//! program `warn_archive`; begin with `Archive`, which `Outside::run` of `program_outside` runs,
//! or with its `run` for other inputs and outputs.
#![tactic(auto)]

mod archive;
mod counts;
mod entries;
mod findings;
mod input;
mod laws;
mod lines;
mod lives;
mod page;
mod products;
mod report;
mod tally;
mod texts;
mod words;

pub use archive::Archive;
pub use laws::what_is_told_begins_the_report;
pub use products::read_product;
pub use tally::Reading;
pub use words::{Asked, asked_of};
