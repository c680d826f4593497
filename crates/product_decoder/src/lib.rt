//! Reads the products of an office and judges their lines. For whoever has texts, an archive or a
//! stream: `decode` reads one product, `Reader::new` and `Reader::take` take product after product,
//! and `Feed` cuts a stream into products.
#![tactic(auto)]

mod feed;
mod findings;
mod frame_lines;
mod held;
mod openings;
mod read;
mod reader;
mod taken;
mod tracks;
mod types;
mod zone_steps;

pub use feed::{Feed, lines_tell_the_products, products_of};
pub use frame_lines::judged_by_frame;
pub use product_frame::split_products;
pub use read::decode;
pub use reader::Reader;
pub use taken::{is_by, is_vtec_by};
pub use tracks::EventLives;
pub use types::{Decoded, Found, GapFound, Opening, Track, ZonePair};
