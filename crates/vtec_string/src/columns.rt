//! The columns of a P-VTEC string, as indices of its bytes.
//!
//! Source: NWS Instruction 10-1703, P-VTEC.
use std::ops::Range;

/// The length of a P-VTEC string, in bytes.
pub const LENGTH: usize = 48;

pub const CLASS: usize = 1;

pub const ACTION: Range<usize> = 3..6;

pub const OFFICE: Range<usize> = 7..11;

pub const PHENOMENON: Range<usize> = 12..14;

pub const SIGNIFICANCE: usize = 15;

pub const NUMBER: Range<usize> = 17..21;

pub const BEGIN: Range<usize> = 22..34;

pub const END: Range<usize> = 35..47;
