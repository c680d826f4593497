//! The faults of making a journal, opening it and appending to it.

/// Why a body was not appended.
#[derive(Clone, Copy, Debug, PartialEq, Eq)]
pub enum AppendFault {
    /// The file would have more than 268,435,456 bytes.
    Full,
    DiskFault,
}

/// Why a journal was not opened.
#[derive(Clone, Copy, Debug, PartialEq, Eq)]
pub enum AdoptFault {
    Fresh,
    /// The file is no journal from the gate at this place on, in bytes from 0.
    Damaged { at: u64 },
    DiskFault,
    OutOfMemory,
}

/// Why a journal was not made.
#[derive(Clone, Copy, Debug, PartialEq, Eq)]
pub enum CreateFault {
    NotFresh,
    DiskFault,
}
