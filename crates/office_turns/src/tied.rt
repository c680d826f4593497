//! A value with its history.
use std::marker::Model;

/// A value of which a history `S` may be true.
pub trait HasStory<S> {
    /// Whether the history is true of the value.
    ghost agrees: { Self → S → Type 0 };
}

/// A value with its history. Both are type parameters, so that the pair may cross threads
/// (docs/DECISIONS.md, "Turns").
#[derive(Drop)]
pub struct WithStory<K: HasStory<S>, S> {
    pub(crate) kept: K,
    pub(crate) story: S,
}

impl<K: HasStory<S>, S> Model for WithStory<K, S> {
    ghost use Rattle.office_turns.specs.Tying.{Beside};

    ghost Value = { Beside K S };

    ghost view = { λ t. record { kept = t.kept; story = t.story } };

    ghost invariant = { λ t. K.agrees t.kept t.story };
}
