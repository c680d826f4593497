//! The frames of products: heading, identifier, issue minute, and the zones, expiry and VTEC lines
//! of each segment, read from a text and written as one.
//!
//! For crates that read or write whole products. One begins with `read_frame`, `split_products` and
//! `frame_text`.
#![tactic(auto)]

mod frame;
mod read;
mod split;
mod text;
mod walk;
mod write;

pub use frame::{Frame, FrameFault, FrameSegment, Heading, Pair};
pub use read::{frame_or_fault, is_heading, read_frame, read_frame_with};
pub use split::{split_products, texts_are_split_apart};
pub use text::next_start;
pub use write::{Block, Body, frame_text};
