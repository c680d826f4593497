//! The columns of an H-VTEC string, as indices of its bytes.
//!
//! Source: NWS Instruction 10-1703, H-VTEC.
use std::ops::Range;

/// The length of an H-VTEC string, in bytes.
pub const LENGTH: usize = 54;

pub const LOCATION: Range<usize> = 1..6;

pub const SEVERITY: usize = 7;

pub const CAUSE: Range<usize> = 9..11;

pub const BEGIN: Range<usize> = 12..24;

pub const CREST: Range<usize> = 25..37;

pub const END: Range<usize> = 38..50;

pub const STATUS: Range<usize> = 51..53;
