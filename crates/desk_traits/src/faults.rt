//! The one error of calls to the outside.

/// A call of the disk, a stream or the network failed.
#[derive(Clone, Copy, Debug, PartialEq, Eq)]
pub struct Failed;
