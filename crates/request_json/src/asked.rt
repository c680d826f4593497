//! A request with its desk and number.
use office_types::{Desk, Request};

/// A request, with the desk that sends it and the number that the desk gives it.
///
/// Source: docs/REQUESTS.md, "Desks and numbers".
#[derive(Clone, Debug, Drop, PartialEq, Eq)]
pub struct Asked {
    /// The desk.
    pub desk: Desk,
    /// The number, from 1 on in a request that was read.
    pub seq: u32,
    /// The request.
    pub request: Request,
}
