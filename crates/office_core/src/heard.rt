//! The last accepted request of each desk.
use office_types::{Desk, Reply, Request};

/// The last accepted request of a desk: its number, what it asks for, and its reply.
#[derive(Debug, Drop)]
pub struct LastRequest {
    pub seq: u32,
    pub request: Request,
    pub reply: Reply,
}

/// A desk with its last accepted request, if it has one.
#[derive(Debug, Drop)]
pub struct DeskRecord {
    pub desk: Desk,
    pub said: Option<LastRequest>,
}
