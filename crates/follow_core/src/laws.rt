//! Laws of the schedule: whatever answers are late, lost or repeated.
ghost use Rattle.std.specs.Prelude.{◌≤◌, ℕ, List};
ghost use Rattle.hazard_types.specs.declared.codes.Class.{Class};
ghost use Rattle.follow_core.specs.Hearing.{place_of};
ghost use Rattle.follow_core.specs.Schedule.{World, Event, run, begun, HasLostNothing};

/// Start with an office without texts and a follower that has taken none, and let any list of
/// events happen: texts, questions, and answers that are late, lost or repeated. Then the texts
/// that the follower has taken are the office's first ones, as many as its place, and it shows what
/// a reader of exactly these texts shows.
#[tactic(auto, using(crate::proofs::Scheduled::nothing_lost))]
pub fn followers_lose_nothing()
    ensures { (office : List ℕ) (class : Class) (events : List Event) →
        HasLostNothing office class (run events (begun office class)) }
{}

/// A follower's place, the number of products that it has taken, is never less after a list of
/// events than before it. This holds for any events and any state before them.
#[tactic(auto, using(crate::proofs::Scheduled::never_back))]
pub fn places_never_go_back()
    ensures { (w : World) (events : List Event) →
        place_of w.follower ≤ place_of (run events w).follower }
{}
