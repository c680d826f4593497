//! The field `do` of requests, and the keys that each object may have.
ghost use Rattle.std.specs.Prelude.{◌≡◌};
ghost use Rattle.serde_json.specs.View.{members_view};
ghost use Rattle.request_json.specs.Keys.{verb_at, has_key, is_common, is_of_put, is_of_issue, is_of_draft_put, is_of_event, is_of_routine, is_of_flood, is_of_texts, keys_of, all_known};

use serde_json::{Map, Value};

/// The value of a request's field `do`.
#[derive(Clone, Copy)]
pub enum Verb {
    Open,
    Issue,
    Put,
    End,
    Restate,
    Routine,
    Drop,
    Take,
    Discard,
    Send,
    Correct,
}

/// A set of keys: of a kind of request, of a line of the training office, of H-VTEC values, of
/// texts, or of an event with its texts.
#[derive(Clone, Copy)]
pub enum Keys {
    Open,
    Issue,
    Training,
    Put,
    /// The keys of `end` and `restate`.
    Event,
    Routine,
    Drop,
    /// The keys of `take`, `discard` and `send`.
    Draft,
    Correct,
    Flood,
    Texts,
    EventTexts,
}

impl Verb {
    /// Returns the verb that the word is, or `None` if it is not `open`, `issue`, `put`, `end`,
    /// `restate`, `routine`, `drop`, `take`, `discard`, `send` or `correct`.
    pub fn from_word(word: &str) -> Option<Verb>
        ensures { result ≡ verb_at word.now }
    {
        match word {
            "open" => Some(Verb::Open),
            "issue" => Some(Verb::Issue),
            "put" => Some(Verb::Put),
            "end" => Some(Verb::End),
            "restate" => Some(Verb::Restate),
            "routine" => Some(Verb::Routine),
            "drop" => Some(Verb::Drop),
            "take" => Some(Verb::Take),
            "discard" => Some(Verb::Discard),
            "send" => Some(Verb::Send),
            "correct" => Some(Verb::Correct),
            _ => None,
        }
    }

    /// Returns the set of keys that a request with this verb may have.
    pub fn keys(self) -> Keys
        ensures { result ≡ keys_of self }
    {
        match self {
            Verb::Open => Keys::Open,
            Verb::Issue => Keys::Issue,
            Verb::Put => Keys::Put,
            Verb::End | Verb::Restate => Keys::Event,
            Verb::Routine => Keys::Routine,
            Verb::Drop => Keys::Drop,
            Verb::Take | Verb::Discard | Verb::Send => Keys::Draft,
            Verb::Correct => Keys::Correct,
        }
    }
}

/// Whether requests of every kind may have the key: `desk`, `seq` or `do`.
fn is_common(key: &str) -> bool
    ensures { result ≡ is_common key.now }
{
    matches!(key, "desk" | "seq" | "do")
}

/// Whether the key is `zones`, `begin`, `end`, `flood` or `texts`. Both an `issue` and a `put` may
/// have these beside the keys that say which event they are on.
fn is_of_put(key: &str) -> bool
    ensures { result ≡ is_of_put key.now }
{
    matches!(key, "zones" | "begin" | "end" | "flood" | "texts")
}

/// Whether an `issue` may have the key, apart from `desk`, `seq` and `do`: `hazard`, `zones`,
/// `begin`, `end`, `flood` or `texts`. A line of the training office may have these keys too.
fn is_of_issue(key: &str) -> bool
    ensures { result ≡ is_of_issue key.now }
{
    key == "hazard" || is_of_put(key)
}

/// Whether a put into a draft may have the key, apart from `desk`, `seq` and `do`: `draft`,
/// `hazard`, `event`, `zones`, `begin`, `end`, `flood` or `texts`.
fn is_of_draft_put(key: &str) -> bool
    ensures { result ≡ is_of_draft_put key.now }
{
    matches!(key, "draft" | "hazard" | "event") || is_of_put(key)
}

/// Whether an `end` or a `restate` may have the key, apart from `desk`, `seq` and `do`: `draft`,
/// `event`, `zones` or `texts`.
fn is_of_event(key: &str) -> bool
    ensures { result ≡ is_of_event key.now }
{
    matches!(key, "draft" | "event" | "zones" | "texts")
}

/// Whether a `routine` may have the key, apart from `desk`, `seq` and `do`: `draft`, `hazard`,
/// `zones` or `texts`.
fn is_of_routine(key: &str) -> bool
    ensures { result ≡ is_of_routine key.now }
{
    matches!(key, "draft" | "hazard" | "zones" | "texts")
}

/// Whether the key is one of the seven of an object of H-VTEC values, as `site` or `crest`.
fn is_of_flood(key: &str) -> bool
    ensures { result ≡ is_of_flood key.now }
{
    matches!(
        key,
        "site" | "severity" | "cause" | "begin" | "crest" | "end" | "status"
    )
}

/// Whether the key is one of the four of an object of texts: `what`, `area`, `impacts` or
/// `details`.
fn is_of_texts(key: &str) -> bool
    ensures { result ≡ is_of_texts key.now }
{
    matches!(key, "what" | "area" | "impacts" | "details")
}

impl Keys {
    /// Whether the key is in the set.
    ///
    /// Source: docs/REQUESTS.md, "The requests".
    #[tactic(auto, unfolding(crate::specs::Keys::has_key))]
    pub fn has(self, key: &str) -> bool
        ensures { result ≡ has_key self key.now }
    {
        match self {
            Keys::Open => is_common(key) || key == "category",
            Keys::Issue => is_common(key) || is_of_issue(key),
            Keys::Training => key == "do" || is_of_issue(key),
            Keys::Put => is_common(key) || is_of_draft_put(key),
            Keys::Event => is_common(key) || is_of_event(key),
            Keys::Routine => is_common(key) || is_of_routine(key),
            Keys::Drop => is_common(key) || matches!(key, "draft" | "place"),
            Keys::Draft => is_common(key) || key == "draft",
            Keys::Correct => is_common(key) || matches!(key, "product" | "texts"),
            Keys::Flood => is_of_flood(key),
            Keys::Texts => is_of_texts(key),
            Keys::EventTexts => matches!(key, "event" | "texts"),
        }
    }

    /// Whether each key of `members` is in the set.
    pub fn has_each_key(self, members: &Map<String, Value>) -> bool
        ensures { result ≡ all_known self (members_view members.now.entries) }
    {
        members.keys().all(|key| self.has(key.as_str()))
    }
}
