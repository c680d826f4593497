//! H-VTEC strings, as `/nwsli.s.ic.yymmddThhnnZ.yymmddThhnnZ.yymmddThhnnZ.fr/`, read and written.
//!
//! For crates that read or write products of floods. One begins with `read_hvtec` and `hvtec_text`.
#![tactic(auto)]

mod columns;
mod read;
mod write;

pub use read::{hvtec_values, read_hvtec};
pub use write::{hvtec_columns, hvtec_text};
