//! Laws of the single lines of plans and corrections, for the crates that write their text.
ghost use Rattle.std.specs.Prelude.{◌≡◌, ◌≤◌, ℕ, Bool, true, List, None, is_some};
ghost use Rattle.std.specs.List.{All, Any, Contains};
ghost use Rattle.hazard_types.specs.Hazards.{facts_of};
ghost use Rattle.hazard_types.specs.declared.codes.Action.TheVariants.{Cor, Exp};
ghost use Rattle.hazard_types.specs.declared.codes.Category.{Category};
ghost use Rattle.hazard_types.specs.declared.line.Flood.{Flood};
ghost use Rattle.hazard_types.specs.declared.line.Line.{Line};
ghost use Rattle.hazard_types.specs.declared.line.Row.{Row};
ghost use Rattle.hazard_types.specs.declared.period.End.TheVariants.{At};
ghost use Rattle.office_types.specs.declared.request.Intent.{Intent};
ghost use Rattle.event_numbers.specs.declared.Count.{Count};
ghost use Rattle.action_planner.specs.Conditions.{AreNumbered, AreSited, CanPlan, needs_values};
ghost use Rattle.action_planner.specs.Corrections.{corrected_lines};
ghost use Rattle.action_planner.specs.Lines.{planned_lines};
ghost use Rattle.action_planner.specs.Offences.{broken};
ghost use Rattle.action_planner.specs.Placed.{placed, zones_of};
ghost use Rattle.action_planner.specs.Standing.{AreKnown, HaveFourDigits, IsKnown};
ghost use Rattle.action_planner.specs.Told.{flood_of, passes};

/// If the desk issues the hazard of each row, it issues the hazard of each line of a draft's
/// product and of each line of a correction.
pub fn lines_are_of_the_desks_hazards()
    ensures planned { (c : Category) (rows : List Row) (counts : List Count)
        (intents : List Intent) (t : ℕ) →
        CanPlan rows counts c intents t → AreKnown rows →
        All (λ (line : Line). IsKnown line.event.hazard)
        (planned_lines c rows t (placed counts t intents)) }
    ensures corrected { (rows : List Row) (t : ℕ) (lines : List Line) →
        AreKnown rows →
        All (λ (line : Line). IsKnown line.event.hazard) (corrected_lines rows t lines) }
{}

/// If at most 9,999 numbers of each hazard and year were drawn, and the events that have rows are
/// those with drawn numbers, the event tracking number of each line of a correction is at most
/// 9,999. So is that of each line of a draft's product, if the draft breaks no rule.
pub fn lines_have_four_digits()
    ensures planned { (c : Category) (rows : List Row) (counts : List Count)
        (intents : List Intent) (t : ℕ) →
        CanPlan rows counts c intents t → HaveFourDigits counts →
        broken c rows t (placed counts t intents) ≡ None →
        All (λ (line : Line). line.event.etn ≤ 9999)
        (planned_lines c rows t (placed counts t intents)) }
    ensures corrected { (rows : List Row) (counts : List Count) (t : ℕ) (lines : List Line) →
        AreNumbered rows counts → HaveFourDigits counts →
        All (λ (line : Line). line.event.etn ≤ 9999) (corrected_lines rows t lines) }
{}

/// Each EXP line of a draft's product ends at a minute, not until further notice. A correction has
/// COR lines only.
pub fn expiring_lines_end_at_a_minute()
    ensures planned { (c : Category) (rows : List Row) (counts : List Count)
        (intents : List Intent) (t : ℕ) →
        All (λ (line : Line). line.action ≡ Exp → (m : ℕ) × (line.end ≡ At m))
        (planned_lines c rows t (placed counts t intents)) }
    ensures corrected { (rows : List Row) (t : ℕ) (lines : List Line) →
        All (λ (line : Line). line.action ≡ Cor) (corrected_lines rows t lines) }
{}

/// Each line of a draft is in a zone of one of its intents.
pub fn lines_stand_in_the_drafts_zones()
    ensures { (c : Category) (rows : List Row) (counts : List Count) (intents : List Intent)
        (t : ℕ) →
        All (λ (line : Line). Any (λ (i : Intent). Contains (zones_of i) line.zone) intents)
        (planned_lines c rows t (placed counts t intents)) }
{}

/// Each line of a draft's product has H-VTEC values if its hazard needs them and the draft breaks
/// no rule. So has each line of a correction whose hazard needs them, if all rows of such hazards
/// have them.
pub fn flood_lines_have_values()
    ensures planned { (c : Category) (rows : List Row) (counts : List Count)
        (intents : List Intent) (t : ℕ) →
        CanPlan rows counts c intents t → broken c rows t (placed counts t intents) ≡ None →
        All (λ (line : Line).
        needs_values (facts_of line.event.hazard) ≡ true → is_some line.flood ≡ true)
        (planned_lines c rows t (placed counts t intents)) }
    ensures corrected { (rows : List Row) (t : ℕ) (lines : List Line) →
        AreSited rows →
        All (λ (line : Line).
        needs_values (facts_of line.event.hazard) ≡ true → is_some line.flood ≡ true)
        (corrected_lines rows t lines) }
{}

/// If a test, such as one of the form of a location, accepts the H-VTEC values of all rows and of
/// all puts of a draft, it accepts those of all lines of the draft's product. If it accepts those
/// of all rows, it accepts those of all lines of a correction.
pub fn flood_values_are_those_given()
    ensures planned { (test : Flood → Bool) (c : Category) (rows : List Row) (counts : List Count)
        (intents : List Intent) (t : ℕ) →
        All (λ (row : Row). passes test row.flood ≡ true) rows →
        All (λ (i : Intent). passes test (flood_of i) ≡ true) intents →
        All (λ (line : Line). passes test line.flood ≡ true)
        (planned_lines c rows t (placed counts t intents)) }
    ensures corrected { (test : Flood → Bool) (rows : List Row) (t : ℕ) (lines : List Line) →
        All (λ (row : Row). passes test row.flood ≡ true) rows →
        All (λ (line : Line). passes test line.flood ≡ true) (corrected_lines rows t lines) }
{}
