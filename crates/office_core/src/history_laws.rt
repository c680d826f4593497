//! Laws of legal histories. They have no code.
ghost use Rattle.std.specs.Prelude.{◌≡◌, ◌≢◌, ◌+◌, ℕ, ℤ, Bool, List, Option};
ghost use Rattle.hazard_types.specs.declared.codes.Class.{Class};
ghost use Rattle.desk_settings.specs.declared.settings.Settings.{Settings};
ghost use Rattle.office_core.specs.Histories.{Entered, IsLegal, StandOnce, entries_of};
ghost use Rattle.event_numbers.specs.declared.Count.{Count};
ghost use Rattle.office_types.specs.declared.request.Request.{Request};
ghost use Rattle.office_core.specs.Sound.{IsSound};
ghost use Rattle.office_core.specs.State.{State, last_number};
ghost use Rattle.office_core.specs.Step.{Accepts, entry_of, state_after};
ghost use Rattle.office_core.specs.declared.made.Made.{Made};

/// Law: in a legal history of an office, the numbers of the requests of each desk are 1, 2, 3 and
/// so on, in this order. So each request is there once.
pub fn requests_stand_once()
    ensures { (fits : List Entered → Entered → Bool) (settings : Settings) (class : Class)
        (history : List Entered) (s : State) →
        IsLegal fits settings class history s → StandOnce (entries_of history) }
{}

/// Law: the number of an accepted request is one above that of its desk's last accepted request, 0
/// before the first. After it, that number is its desk's last, and the last numbers of other desks
/// are as before.
pub fn accepted_requests_are_numbered_on()
    ensures number { (s : State) (counts : List Count) (desk : List ℕ) (seq : ℕ) (r : Request)
        (reading : ℤ) (t : ℕ) (made : Option Made) →
        Accepts s desk seq r reading t made → seq ≡ last_number s desk + 1 }
    ensures last { (s : State) (counts : List Count) (desk : List ℕ) (seq : ℕ) (r : Request)
        (reading : ℤ) (t : ℕ) (made : Option Made) →
        IsSound s counts → Accepts s desk seq r reading t made →
        last_number (state_after s (entry_of s desk seq r t made) made) desk ≡ seq }
    ensures others { (s : State) (counts : List Count) (desk : List ℕ) (seq : ℕ) (r : Request)
        (reading : ℤ) (t : ℕ) (made : Option Made) (other : List ℕ) →
        IsSound s counts → Accepts s desk seq r reading t made → other ≢ desk →
        last_number (state_after s (entry_of s desk seq r t made) made) other
        ≡ last_number s other }
{}
