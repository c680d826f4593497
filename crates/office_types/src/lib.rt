//! What a warning desk asks of its office, and what it is answered: requests, drafts and their
//! intents, plans, products, refusals with their words, and queries.
#![tactic(auto)]

mod desk;
mod display;
mod laws;
mod refusal;
mod request;

pub use desk::Desk;
pub use laws::equality_of_requests_is_identity;
pub use refusal::Refusal;
pub use request::{
    Draft, Edition, Entry, EventPart, EventTexts, Intent, Plan, PutPart, Query, Reply, Request,
    RoutinePart, Sent, SentReply, Target, Texts, Word,
};
