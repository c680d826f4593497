//! What a send, an issue and a correction make.
use hazard_types::{Event, List};
use office_types::Sent;

/// A product, and the events that it opens, in the order of their intents.
#[derive(Debug, Drop)]
pub struct Made {
    pub sent: Sent,
    pub opened: List<Event>,
}
