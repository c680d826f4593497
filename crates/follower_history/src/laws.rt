//! Laws of legal histories: what a reader of their texts finds, and what a follower shows.
ghost use Rattle.std.specs.Prelude.{ℕ, Bool, List};
ghost use Rattle.hazard_types.specs.declared.codes.Class.{Class};
ghost use Rattle.desk_settings.specs.declared.settings.Settings.{Settings};
ghost use Rattle.follow_core.specs.Schedule.{Event, run, begun};
ghost use Rattle.follower_history.specs.Fronts.{AreFirstTexts, EndAtAFront};
ghost use Rattle.follower_history.specs.Fronts.{MayBegin, ShowsTheBoard};
ghost use Rattle.office_core.specs.Agreement.{ReadsAsTheBoard};
ghost use Rattle.office_core.specs.Histories.{Entered, IsLegal};
ghost use Rattle.office_core.specs.State.{State};

/// A history is legal if the office accepts the request of each entry after the entries before it,
/// and the entry's record fits into the journal. A reader who has only the texts of a legal history
/// finds in them lawful lives of the events, numbers without gaps, and the same rows as the
/// office's board. The settings must have their form, and may allow any zone (`any_zone`) only if
/// `class` is one of training.
#[tactic(auto, using(crate::proofs::Legal::legal_reads))]
pub fn legal_histories_read_as_their_boards()
    ensures { (fits : List Entered → Entered → Bool) (settings : Settings) (class : Class)
        (history : List Entered) (s : State) → MayBegin settings class
        → IsLegal fits settings class history s → ReadsAsTheBoard s }
{}

/// The first texts of a legal history (one whose requests the office accepts one after another),
/// however many are taken, are exactly all texts of some prefix of that history, which is legal
/// too.
#[tactic(auto, using(crate::proofs::Cut::at_front))]
pub fn first_texts_end_at_a_front()
    ensures { (fits : List Entered → Entered → Bool) (settings : Settings) (class : Class)
        (history : List Entered) (s : State) (texts : List (List ℕ))
        → IsLegal fits settings class history s → AreFirstTexts s texts
        → EndAtAFront fits settings class history texts }
{}

/// An office goes on by a legal history and publishes its texts one after another. After any list
/// of events (texts, questions, and answers that are late, lost or repeated) a follower shows at
/// each minute what the office's board shows after a prefix of the history. That prefix has as many
/// products as the follower has taken, and its texts are those that the follower took.
///
/// Source: docs/FOLLOWING.md, "Nothing is lost".
pub fn followers_show_the_board()
    ensures { (fits : List Entered → Entered → Bool) (settings : Settings) (class : Class)
        (history : List Entered) (s : State) (events : List Event) → MayBegin settings class
        → IsLegal fits settings class history s
        → AreFirstTexts s (run events (begun settings.office class)).texts
        → ShowsTheBoard fits settings class history (run events (begun settings.office class)) }
{}
