//! The field `do`, and the keys that a line may have with each of its values.
ghost use Rattle.std.specs.Prelude.{◌≡◌};
ghost use Rattle.serde_json.specs.View.{members_view};
ghost use Rattle.notice_json.specs.Keys.{verb_at, is_common, has_key, all_known};

use serde_json::{Map, Value};

/// The value of a line's field `do`.
#[derive(Clone, Copy, Debug, PartialEq, Eq)]
pub enum Verb {
    Open,
    Join,
    End,
}

/// Whether the key is one that each line has, whatever its verb: `at`, `do`, `hazard`, `number` or
/// `zones`.
fn is_common(key: &str) -> bool
    ensures { result ≡ is_common key.now }
{
    matches!(key, "at" | "do" | "hazard" | "number" | "zones")
}

impl Verb {
    /// Returns the verb that is written `open`, `join` or `end`, or `None` for any other word.
    pub fn from_word(word: &str) -> Option<Verb>
        ensures { result ≡ verb_at word.now }
    {
        match word {
            "open" => Some(Verb::Open),
            "join" => Some(Verb::Join),
            "end" => Some(Verb::End),
            _ => None,
        }
    }

    /// Whether a line with this verb may have the key: `at`, `do`, `hazard`, `number` or `zones`,
    /// or `end` if the verb is `Open` or `Join`.
    pub fn has_key(self, key: &str) -> bool
        ensures { result ≡ has_key self key.now }
    {
        match self {
            Verb::Open | Verb::Join => is_common(key) || key == "end",
            Verb::End => is_common(key),
        }
    }

    /// Whether each key of `members` is one that a line with this verb may have. Missing keys are
    /// not tested.
    pub fn has_only_known_keys(self, members: &Map<String, Value>) -> bool
        ensures { result ≡ all_known self (members_view members.now.entries) }
    {
        members.keys().all(|key| self.has_key(key.as_str()))
    }
}
