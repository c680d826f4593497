//! Laws: a request has one answer, and so has a look; a request may be judged again at its own
//! minute; and what is prepared stays valid while other requests are prepared. They have no code.
ghost use Rattle.std.specs.Prelude.{◌≡◌, ◌⊎◌, ◌≤◌, ℕ, ℤ, pos, List, Option};
ghost use Rattle.office_types.specs.declared.refusal.Refusal.{Refusal};
ghost use Rattle.office_types.specs.declared.request.Query.{Query};
ghost use Rattle.office_types.specs.declared.request.Reply.{Reply};
ghost use Rattle.office_types.specs.declared.request.Request.{Request};
ghost use Rattle.office_core.specs.Look.{RefusesLook, Shows};
ghost use Rattle.office_core.specs.Prepared.{MayCommit, Readied};
ghost use Rattle.office_core.specs.State.{State};
ghost use Rattle.office_core.specs.Step.{Accepts, Refuses, Repeats};
ghost use Rattle.office_core.specs.Views.{IsRoomier, OfficeView};
ghost use Rattle.office_core.specs.declared.made.Made.{Made};

/// Law: no request is answered in two of the three ways accepted, refused and repeated. An accepted
/// request has one minute and makes one product, or none, and a refused one has one refusal.
pub fn a_request_has_one_answer()
    ensures accepted { (s : State) (desk : List ℕ) (seq : ℕ) (r : Request) (reading : ℤ) (t u : ℕ)
        (made other : Option Made) →
        Accepts s desk seq r reading t made → Accepts s desk seq r reading u other →
        (t ≡ u) × (made ≡ other) }
    ensures refused { (s : State) (desk : List ℕ) (seq : ℕ) (r : Request) (reading : ℤ)
        (x y : Refusal) →
        Refuses s desk seq r reading x → Refuses s desk seq r reading y → x ≡ y }
    ensures apart { (s : State) (desk : List ℕ) (seq : ℕ) (r : Request) (reading : ℤ) (t : ℕ)
        (made : Option Made) (x : Refusal) →
        Accepts s desk seq r reading t made → Refuses s desk seq r reading x → ⊥ }
    ensures repeated { (s : State) (desk : List ℕ) (seq : ℕ) (r : Request) (reading : ℤ) (t : ℕ)
        (made : Option Made) (kept : Reply) →
        Repeats s desk seq r kept → Accepts s desk seq r reading t made → ⊥ }
    ensures unrefused { (s : State) (desk : List ℕ) (seq : ℕ) (r : Request) (reading : ℤ)
        (x : Refusal) (kept : Reply) →
        Repeats s desk seq r kept → Refuses s desk seq r reading x → ⊥ }
{}

/// Law: a query, in a state of the office and at a reading of the clock, has exactly one answer:
/// one text or one refusal.
pub fn a_look_has_one_answer()
    ensures either { (s : State) (q : Query) (reading : ℤ) →
        ((text : List ℕ) × Shows s q reading text) ⊎ ((x : Refusal) × RefusesLook s q reading x) }
    ensures not_both { (s : State) (q : Query) (reading : ℤ) (text : List ℕ) (x : Refusal) →
        Shows s q reading text → RefusesLook s q reading x → ⊥ }
    ensures one_text { (s : State) (q : Query) (reading : ℤ) (text other : List ℕ) →
        Shows s q reading text → Shows s q reading other → text ≡ other }
    ensures one_refusal { (s : State) (q : Query) (reading : ℤ) (x y : Refusal) →
        RefusesLook s q reading x → RefusesLook s q reading y → x ≡ y }
{}

/// Law: if a request is accepted at some reading of the clock, with minute `t`, it would be
/// accepted if the clock read `t`, with the same minute, and make the same product. This holds if
/// the last entry before the request is at minute 52,000,000 or earlier.
#[tactic(auto, using(crate::proofs::ReadingLemmas::at_own_minute))]
pub fn accepted_requests_are_accepted_at_their_minute()
    ensures { (s : State) (desk : List ℕ) (seq : ℕ) (r : Request) (reading : ℤ) (t : ℕ)
        (made : Option Made) →
        s.last ≤ 52000000 → Accepts s desk seq r reading t made →
        Accepts s desk seq r (pos t) t made }
{}

/// Law: what an office may commit it may commit later too, if its state and its counts of event
/// numbers are as before and it has at least as much spare memory. So other requests may be
/// prepared in between, but none committed.
pub fn what_is_prepared_may_wait()
    ensures { (o now : OfficeView) (p : Readied) →
        now.state ≡ o.state → now.counts ≡ o.counts → IsRoomier o.room now.room → MayCommit o p →
        MayCommit now p }
{}
