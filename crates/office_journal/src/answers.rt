//! The answers of a `KeptOffice`.
use crate::submit::KeptReply;
use office_types::Refusal;

/// The answer to a request. In all cases but `Accepted` and `DiskFault` the office and its disk are
/// as before.
#[derive(Debug, Drop, PartialEq, Eq)]
pub enum Answer {
    /// The request is in the journal, durably. This is its reply.
    Accepted(KeptReply),
    /// The request is the desk's last one again. This is the reply that it had.
    Repeated(KeptReply),
    /// The request breaks this rule first.
    Refused(Refusal),
    /// The disk failed, and the request is not accepted. Its entry may be in the file all the same.
    DiskFault,
    OutOfMemory,
}

/// The outcome of an upgrade to edition Two.
#[derive(Clone, Copy, Debug, PartialEq, Eq)]
pub enum Upgrade {
    Done,
    /// The edition was Two before the call.
    Already,
    /// The mark has no room in the journal.
    Full,
    DiskFault,
    OutOfMemory,
}
