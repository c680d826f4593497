//! P-VTEC strings, as `/k.aaa.cccc.pp.s.####.yymmddThhnnZ-yymmddThhnnZ/`, read and written.
//!
//! For crates that read or write products. One begins with `read_vtec` and `vtec_text`.
#![tactic(auto)]

mod columns;
mod read;
mod write;

pub use read::{read_vtec, vtec_values};
pub use write::vtec_text;
