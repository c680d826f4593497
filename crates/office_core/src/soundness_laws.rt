//! Laws: an office's state is sound at first and after each accepted request, and what a request
//! makes may be planned and written. They have no code.
ghost use Rattle.std.specs.Prelude.{◌≡◌, ◌≤◌, ℕ, ℤ, List, [], Option, None, true, false};
ghost use Rattle.hazard_types.specs.declared.codes.Class.{Class};
ghost use Rattle.office_types.specs.declared.request.Edition.{Edition};
ghost use Rattle.office_types.specs.declared.request.Plan.{Plan};
ghost use Rattle.office_types.specs.declared.request.Request.{Request};
ghost use Rattle.desk_settings.specs.AreSettings.{HasForms};
ghost use Rattle.desk_settings.specs.declared.settings.Settings.{Settings};
ghost use Rattle.event_numbers.specs.declared.Count.{Count};
ghost use Rattle.product_template.specs.Bodies.{is_training};
ghost use Rattle.product_template.specs.Conditions.{CanBeText};
ghost use Rattle.request_json.specs.Formed.{HasRequestForm};
ghost use Rattle.office_core.specs.Keeping.{MayBePlanned};
ghost use Rattle.office_core.specs.Making.{Making, IsPlanOf, broken_lines, drafted_by, making_of};
ghost use Rattle.office_core.specs.Prepared.{draws};
ghost use Rattle.office_core.specs.Rules.{broken_request, is_out, is_repeated, minute_of};
ghost use Rattle.office_core.specs.Sound.{IsSound, IsSoundMaking};
ghost use Rattle.office_core.specs.State.{State, draft_at, first_state};
ghost use Rattle.office_core.specs.Step.{Accepts, entry_of, state_after};
ghost use Rattle.office_core.specs.declared.made.Made.{Made};

/// Law: an office before any request is sound (`IsSound`: what holds of an office between
/// requests), if its settings have their forms and allow every zone only in training.
pub fn offices_begin_sound()
    ensures { (settings : Settings) (class : Class) (edition : Edition) →
        HasForms settings → (settings.any_zone ≡ true → is_training class ≡ true) →
        IsSound (first_state settings class edition) [] }
{}

/// Law: in a sound office, a request that has its form, is no repetition and breaks no rule on its
/// desk, number, clock, draft and parts makes a product of sound parts, or none (`IsSoundMaking`:
/// at most 64 intents whose zones, hazard and texts fit the settings, or a correction with
/// printable texts).
pub fn requests_make_sound_products()
    ensures { (s : State) (counts : List Count) (desk : List ℕ) (seq : ℕ) (r : Request)
        (reading : ℤ) →
        IsSound s counts → HasRequestForm r → is_repeated s desk seq r ≡ false →
        broken_request s desk seq r reading ≡ None →
        IsSoundMaking s (making_of s r) }
{}

/// Law: in a sound office the parts of each open draft are sound (`IsSoundMaking`), which is what a
/// product needs to be planned of them.
pub fn open_drafts_are_sound()
    ensures { (s : State) (counts : List Count) (id : ℕ) →
        IsSound s counts → IsSoundMaking s (drafted_by (draft_at s id)) }
{}

/// Law: in a sound office, the minute at which a request would be accepted is at most 52,000,000
/// and not before that of the last entry, for a reading of the clock from 0 to 52,000,000.
pub fn entries_come_in_order()
    ensures { (s : State) (counts : List Count) (reading : ℤ) →
        IsSound s counts → is_out reading ≡ false →
        (s.last ≤ minute_of s reading) × (minute_of s reading ≤ 52000000) }
{}

/// Law: in a sound office, a product of sound parts (`IsSoundMaking`) meets what the planner asks
/// for, at a minute from that of the last entry to 52,000,000.
pub fn sound_products_may_be_planned()
    ensures { (s : State) (counts : List Count) (t : ℕ) (making : Making) →
        IsSound s counts → s.last ≤ t → t ≤ 52000000 → IsSoundMaking s making →
        MayBePlanned s counts t making }
{}

/// Law: in a sound office, the plan of a product of sound parts (`IsSoundMaking`) whose lines break
/// no rule meets what the writing of its text asks for, at a minute from that of the last entry to
/// 52,000,000.
pub fn sound_plans_may_be_written()
    ensures { (s : State) (counts : List Count) (t : ℕ) (making : Making) (plan : Plan) →
        IsSound s counts → s.last ≤ t → t ≤ 52000000 → IsSoundMaking s making →
        broken_lines s t making ≡ None → IsPlanOf s t making plan →
        CanBeText s.settings s.class plan t }
{}

/// Law: if an office is sound (`IsSound`) and accepts a request, it is sound after it, with the
/// counts of event numbers from which the events that the request opened have drawn theirs.
pub fn accepted_requests_keep_soundness()
    ensures { (s : State) (counts after : List Count) (desk : List ℕ) (seq : ℕ) (r : Request)
        (reading : ℤ) (t : ℕ) (made : Option Made) →
        IsSound s counts → HasRequestForm r → Accepts s desk seq r reading t made →
        draws counts after made →
        IsSound (state_after s (entry_of s desk seq r t made) made) after }
{}
