//! Writes the text of a planned product: heading, product block, segments with their codes, zone
//! names, headlines and bullets. For callers that have a `Plan`; begin with `product_text`. The
//! functions `texts_say_the_lines` and `texts_read_as_their_plans` are lemmas for proofs.
#![tactic(auto)]

mod bodies;
mod bullets;
mod frame;
mod laws;
mod lengths;
mod names;
mod text;

pub use laws::{texts_read_as_their_plans, texts_say_the_lines};
pub use text::product_text;
