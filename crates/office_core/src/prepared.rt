//! What is prepared, before it is committed.
use crate::made::Made;
use hazard_types::{Minute, Text};
use office_types::{Draft, Entry, Reply};
use std::marker::Model;

/// The change of the open drafts. The places are indices among them, from 0.
#[derive(Debug, Drop)]
pub enum DraftChange {
    /// All stay as they are.
    Keep,
    /// One more is opened.
    Open(Draft),
    /// The draft at this place is replaced.
    Replace(usize, Draft),
    /// The draft at this place is removed.
    Remove(usize),
}

/// An accepted request with all the memory that it needs, before it is committed.
#[derive(Drop)]
pub struct Prepared {
    pub(crate) entry: Entry,
    pub(crate) change: DraftChange,
    pub(crate) made: Option<Made>,
}

impl Model for Prepared {
    ghost use Rattle.office_core.specs.Prepared.{Readied};

    ghost Value = { Readied };

    ghost view = { λ p. record { entry = p.entry; change = p.change; made = p.made } };
}

impl Prepared {
    ghost use Rattle.std.specs.Prelude.{◌≡◌, option_map};

    /// Returns the minute at which the request was accepted.
    pub fn minute(&self) -> Minute
        ensures { result ≡ self.now.entry.minute }
    {
        self.entry.minute
    }

    /// Returns the reply to the request, which `commit` stores.
    pub fn reply(&self) -> &Reply
        ensures { result.now ≡ self.now.entry.reply }
    {
        &self.entry.reply
    }

    /// Returns the text of the product that the request makes, or `None` if it makes none. Only a
    /// send, an issue and a correction make a product.
    pub fn text(&self) -> Option<&Text>
        ensures { option_map (λ text. text.now) result
            ≡ option_map (λ made. made.sent.text) self.now.made }
    {
        match &self.made {
            Some(made) => Some(&made.sent.text),
            None => None,
        }
    }
}

/// The answer of `prepare`: what was prepared, or that the request is a repetition.
#[derive(Drop)]
pub enum Ready {
    New(Prepared),
    Again,
}
