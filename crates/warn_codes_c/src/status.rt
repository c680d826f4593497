//! The statuses that calls return. Those of faults of UGC texts (10 to 12) and of frames (20 to 26)
//! are at the calls that read them.

pub const OK: u32 = 0;

/// Out of memory.
pub const NO_MEMORY: u32 = 1;

/// A buffer has no room for all of its rows; no buffer is written.
pub const TOO_SMALL: u32 = 2;

/// An argument has a value that no call takes.
pub const BAD_ARGUMENT: u32 = 3;

/// The bytes are no P-VTEC text.
pub const NOT_VTEC: u32 = 4;

/// The bytes are no H-VTEC text.
pub const NOT_HVTEC: u32 = 5;

/// No text has these fields.
pub const BAD_VALUE: u32 = 6;

/// No call returns it.
pub const TOO_MANY: u32 = 7;
