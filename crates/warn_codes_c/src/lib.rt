//! The codes of NWS products for callers in C and in languages that call C: P-VTEC, H-VTEC and UGC
//! texts, frames of products, and the lives, breaches and gaps of a stream of products. Begin with
//! `warn_codes_c_read_vtec`, `warn_codes_c_read_frame` and `warn_codes_c_ask`;
//! bindings/c/warn_codes.h declares them and says what a caller owes. Each call returns a status of
//! the module `status`, or that of a fault.
#![tactic(auto)]

mod archive;
mod asking;
mod fields;
mod frames;
mod handing;
mod handle;
mod hvtec;
mod loose;
mod reader;
mod rows;
mod splitting;
mod status;
mod ugc;
mod vtec;
mod writing;

pub use asking::AskedFields;
pub use fields::{FloodFields, VtecFields, ZoneFields};
pub use frames::{FrameFields, LineFields, SegmentFields};
pub use handle::ReaderFields;
pub use rows::{EventFields, RowFields};
pub use splitting::SpanFields;
pub use ugc::UgcFields;
