//! Requests of the desks, their replies, drafts, products and the entries of the journal.
use crate::desk::Desk;
use hazard_types::{
    Begin, Category, End, Event, Flood, Hazard, Line, List, Minute, Segment, Text, Zone,
};

/// A forecaster's texts on an event. An empty one is left out of the product.
///
/// Source: docs/DECISIONS.md, "Product texts".
#[derive(Clone, Debug, Drop, PartialEq, Eq)]
pub struct Texts {
    /// The text of the WHAT bullet.
    pub what: Text,
    /// The text of the WHERE bullet.
    pub area: Text,
    /// The text of the IMPACTS bullet.
    pub impacts: Text,
    /// The text of the ADDITIONAL DETAILS bullet.
    pub details: Text,
}

/// An event with its texts.
#[derive(Clone, Debug, Drop, PartialEq, Eq)]
pub struct EventTexts {
    /// The event.
    pub event: Event,
    /// The texts on it.
    pub texts: Texts,
}

/// The event that a put is on.
#[derive(Clone, Copy, Debug, PartialEq, Eq)]
pub enum Target {
    /// A new event of this hazard.
    Fresh(Hazard),
    /// This open event, which is joined.
    Join(Event),
}

/// An intent that opens or joins an event in zones.
#[derive(Clone, Debug, Drop, PartialEq, Eq)]
pub struct PutPart {
    /// The event.
    pub target: Target,
    /// The zones.
    pub zones: List<Zone>,
    /// The begin.
    pub begin: Begin,
    /// The end.
    pub end: End,
    /// The H-VTEC values, if there are some.
    pub flood: Option<Flood>,
    /// The texts on the event.
    pub texts: Texts,
}

/// An intent that ends or restates an event in zones.
#[derive(Clone, Debug, Drop, PartialEq, Eq)]
pub struct EventPart {
    /// The event.
    pub event: Event,
    /// The zones.
    pub zones: List<Zone>,
    /// The texts on the event.
    pub texts: Texts,
}

/// An intent that makes a routine line (ROU) of a hazard in zones.
#[derive(Clone, Debug, Drop, PartialEq, Eq)]
pub struct RoutinePart {
    /// The hazard.
    pub hazard: Hazard,
    /// The zones.
    pub zones: List<Zone>,
    /// The texts on the hazard.
    pub texts: Texts,
}

/// An intent of a draft.
///
/// Source: docs/REQUESTS.md, "Drafts, intents and places".
#[derive(Clone, Debug, Drop, PartialEq, Eq)]
pub enum Intent {
    /// Opens or joins an event.
    Put(PutPart),
    /// Ends an event in zones (`end`).
    Finish(EventPart),
    /// Says again that an event goes on in zones.
    Restate(EventPart),
    /// Makes a routine line of a hazard.
    Routine(RoutinePart),
}

/// A request of a desk. The first number is that of the draft or of the corrected product.
///
/// Source: docs/REQUESTS.md, "The requests".
#[derive(Clone, Debug, Drop, PartialEq, Eq)]
pub enum Request {
    /// Opens an event and sends it at once, without a draft.
    Issue(PutPart),
    /// Opens a draft (`open`).
    Begin(Category),
    /// Adds an intent that opens or joins an event.
    Put(u32, PutPart),
    /// Adds an intent that ends an event in zones (`end`).
    Finish(u32, EventPart),
    /// Adds an intent that restates an event in zones.
    Restate(u32, EventPart),
    /// Adds an intent that makes a routine line.
    Routine(u32, RoutinePart),
    /// Removes the intent at a place, counted from 0.
    Drop(u32, u32),
    /// Makes the desk the owner of the draft.
    Take(u32),
    /// Removes the draft.
    Discard(u32),
    /// Makes the draft a product.
    Send(u32),
    /// Sends the product again with these texts.
    Correct(u32, List<EventTexts>),
}

/// What an accepted request did to a draft.
#[derive(Clone, Copy, Debug, PartialEq, Eq)]
pub enum Word {
    /// It was opened.
    Begun,
    /// An intent was removed from it.
    Dropped,
    /// The desk became its owner.
    Taken,
    /// It was removed.
    Discarded,
}

/// The reply to an accepted request.
///
/// Source: docs/REQUESTS.md, "Replies".
#[derive(Clone, Debug, Drop, PartialEq, Eq)]
pub enum Reply {
    /// What was done to the draft with this number.
    Draft(Word, u32),
    /// The number of the draft, and the place of its new intent, counted from 0.
    Placed(u32, u32),
    /// A product was sent.
    Sent(SentReply),
}

/// The reply to a request that sent a product.
#[derive(Clone, Debug, Drop, PartialEq, Eq)]
pub struct SentReply {
    /// The number of the product.
    pub product: u32,
    /// The minute at which it was sent.
    pub time: Minute,
    /// The events that it opened, in order.
    pub events: List<Event>,
}

/// A product in preparation.
#[derive(Clone, Debug, Drop, PartialEq, Eq)]
pub struct Draft {
    /// Its number.
    pub id: u32,
    /// The desk that owns it.
    pub owner: Desk,
    /// Its category.
    pub category: Category,
    /// The minute of the last accepted request on it.
    pub touched: Minute,
    /// Its intents, in the order of their places.
    pub intents: List<Intent>,
}

/// What a product will say.
#[derive(Clone, Debug, Drop, PartialEq, Eq)]
pub struct Plan {
    /// The category.
    pub category: Category,
    /// The last letter of a correction's BBB group, as `A` of `CCA`.
    pub bbb: Option<u8>,
    /// The lines.
    pub lines: List<Line>,
    /// The segments.
    pub segments: List<Segment>,
    /// The events that it opens.
    pub opened: List<Event>,
    /// The texts on its events.
    pub texts: List<EventTexts>,
}

/// A product that was sent.
#[derive(Clone, Debug, Drop, PartialEq, Eq)]
pub struct Sent {
    /// Its number.
    pub number: u32,
    /// Its category.
    pub category: Category,
    /// The minute at which it was sent.
    pub time: Minute,
    /// The number of the product that this one corrects.
    pub original: Option<u32>,
    /// Its lines.
    pub lines: List<Line>,
    /// The texts on its events.
    pub texts: List<EventTexts>,
    /// Its text.
    pub text: Text,
}

/// The edition of product texts.
///
/// Source: docs/PRODUCTS.md, "Editions".
#[derive(Clone, Copy, Debug, PartialEq, Eq)]
pub enum Edition {
    /// Texts without WHEN bullets.
    One,
    /// Texts with WHEN bullets.
    Two,
}

/// An accepted request, as the journal keeps it.
#[derive(Clone, Debug, Drop, PartialEq, Eq)]
pub struct Entry {
    /// The minute at which it was accepted.
    pub minute: Minute,
    /// The desk that sent it.
    pub desk: Desk,
    /// The number that the desk gave it.
    pub seq: u32,
    /// The request.
    pub request: Request,
    /// The reply to it.
    pub reply: Reply,
    /// The edition of its product text.
    pub edition: Edition,
}

/// A question about the office, which changes nothing.
#[derive(Clone, Copy, Debug, PartialEq, Eq)]
pub enum Query {
    /// The board.
    Board,
    /// The text of the product with this number.
    Product(u32),
    /// The text of the first product above this number.
    After(u32),
    /// The draft with this number.
    Draft(u32),
    /// The text that the product would have if this draft were sent now.
    Preview(u32),
}
