//! Headlines, WHEN bullets, the words of periods, wrapped text, and lines of zone names.
//!
//! For crates that write the bodies of products. One begins with `line_texts`, `wrapped` and
//! `name_lines`.
#![tactic(auto)]

mod headlines;
mod laws;
mod names;
mod periods;
mod wrapping;

pub use headlines::{LineTexts, headline, line_texts, when_bullet};
pub use laws::{names_stay_whole, wrapping_keeps_words};
pub use names::name_lines;
pub use periods::period_text;
pub use wrapping::wrapped;
