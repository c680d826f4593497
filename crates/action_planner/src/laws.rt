//! Laws of drafts and corrections as a whole.
ghost use Rattle.std.specs.Prelude.{◌≡◌, ◌↔◌, ◌≤◌, ◌+◌, ℕ, true, false, List, [], ◌∷◌, ◌++◌, None, IsTrue, count_by, filter_map, is_none, map};
ghost use Rattle.std.specs.List.{All, AllPairs, Any, Contains};
ghost use Rattle.std.specs.List.Sorted.{IsStrictlySortedBy};
ghost use Rattle.hazard_types.specs.Days.{year_of};
ghost use Rattle.hazard_types.specs.declared.codes.Category.{Category};
ghost use Rattle.hazard_types.specs.declared.hazard.Event.{Event};
ghost use Rattle.hazard_types.specs.declared.hazard.Hazard.{Hazard};
ghost use Rattle.hazard_types.specs.declared.line.Line.{Line};
ghost use Rattle.hazard_types.specs.declared.line.Row.{Row};
ghost use Rattle.office_types.specs.declared.request.EventTexts.{EventTexts};
ghost use Rattle.office_types.specs.declared.request.Intent.{Intent};
ghost use Rattle.office_types.specs.declared.request.Sent.{Sent};
ghost use Rattle.event_life.specs.Lives.{opens};
ghost use Rattle.event_life.specs.Openings.{numbers_of, counted_from, is_numbered};
ghost use Rattle.event_life.specs.Products.{by_key, is_new, is_routine, row_at, rows_after};
ghost use Rattle.event_numbers.specs.declared.Count.{Count};
ghost use Rattle.event_numbers.specs.Counts.{count_of, DrawsAll};
ghost use Rattle.event_life.specs.Reordered.{are_lawful};
ghost use Rattle.action_planner.specs.Placed.{placed, opened, opens_hazard};
ghost use Rattle.action_planner.specs.Lines.{planned_lines, unless_ended};
ghost use Rattle.action_planner.specs.Offences.{broken};
ghost use Rattle.action_planner.specs.Conditions.{CanPlan};
ghost use Rattle.action_planner.specs.Corrections.{broken_correction, corrected_lines};
ghost use Rattle.action_planner.specs.Cases.{IsPlanned, hazard_opened};
ghost use Rattle.action_planner.specs.Standing.{Stands};

/// If a draft breaks no rule, each line of its product is lawful on the rows before the draft, that
/// is, none breaks a rule of the lives of events.
pub fn planned_lines_are_lawful()
    ensures { (c : Category) (rows : List Row) (counts : List Count) (intents : List Intent)
        (t : ℕ) →
        CanPlan rows counts c intents t → IsStrictlySortedBy by_key rows →
        broken c rows t (placed counts t intents) ≡ None →
        IsTrue (are_lawful rows t (planned_lines c rows t (placed counts t intents))) }
{}

/// If a draft breaks no rule, no two lines of its product have the same event and the same zone.
pub fn planned_lines_are_distinct()
    ensures { (c : Category) (rows : List Row) (counts : List Count) (intents : List Intent)
        (t : ℕ) →
        CanPlan rows counts c intents t → IsStrictlySortedBy by_key rows →
        broken c rows t (placed counts t intents) ≡ None →
        AllPairs (λ (l m : Line). ¬ ((l.event ≡ m.event) × (l.zone ≡ m.zone)))
        (planned_lines c rows t (placed counts t intents)) }
{}

/// If a draft breaks no rule, a line of its product that is not ROU has the action NEW, EXA or EXB
/// if and only if its event has no row in its zone, or one that a line has ended. The event of a
/// ROU line has no row in its zone at all.
pub fn planned_lines_open_where_no_row_stands()
    ensures opened { (c : Category) (rows : List Row) (counts : List Count)
        (intents : List Intent) (t : ℕ) →
        CanPlan rows counts c intents t → IsStrictlySortedBy by_key rows →
        broken c rows t (placed counts t intents) ≡ None →
        All (λ (line : Line). is_routine line.action ≡ false →
        opens line.action ≡ is_none (unless_ended (row_at rows line.event line.zone)))
        (planned_lines c rows t (placed counts t intents)) }
    ensures routine { (c : Category) (rows : List Row) (counts : List Count)
        (intents : List Intent) (t : ℕ) →
        CanPlan rows counts c intents t → IsStrictlySortedBy by_key rows →
        broken c rows t (placed counts t intents) ≡ None →
        All (λ (line : Line).
        is_routine line.action ≡ true → row_at rows line.event line.zone ≡ None)
        (planned_lines c rows t (placed counts t intents)) }
{}

/// Each event that a draft opens is of the year of the minute of issue. Those of one hazard, in the
/// order of the intents, have successive numbers, of which the first is one more than how many
/// numbers of the hazard were drawn in that year.
pub fn opened_events_are_numbered_on()
    ensures year { (counts : List Count) (intents : List Intent) (t : ℕ) →
        All (λ (e : Event). e.year ≡ year_of t) (opened (placed counts t intents)) }
    ensures numbers { (counts : List Count) (intents : List Intent) (t : ℕ) (h : Hazard) →
        numbers_of h (year_of t) (opened (placed counts t intents))
        ≡ counted_from (count_of counts h (year_of t) + 1) (count_by (opens_hazard h) intents) }
{}

/// The event of each NEW line of a draft's product is one that the draft opens, and each event that
/// the draft opens has a NEW line.
pub fn new_lines_are_of_opened_events()
    ensures lines { (c : Category) (rows : List Row) (counts : List Count) (intents : List Intent)
        (t : ℕ) →
        All (λ (line : Line).
        is_new line.action ≡ true → Contains (opened (placed counts t intents)) line.event)
        (planned_lines c rows t (placed counts t intents)) }
    ensures events { (c : Category) (rows : List Row) (counts : List Count)
        (intents : List Intent) (t : ℕ) →
        CanPlan rows counts c intents t →
        All (λ (e : Event). Any (λ (line : Line). (is_new line.action ≡ true) × (line.event ≡ e))
        (planned_lines c rows t (placed counts t intents)))
        (opened (placed counts t intents)) }
{}

/// If a draft breaks no rule, the lines of its product are exactly those that the definition
/// `IsPlanned` allows. It decides the line on an event in a zone from the intent that is on them,
/// if there is one, and from the event's row in the zone.
pub fn planned_lines_are_those_planned()
    ensures { (c : Category) (rows : List Row) (counts : List Count) (intents : List Intent)
        (t : ℕ) →
        CanPlan rows counts c intents t → IsStrictlySortedBy by_key rows →
        broken c rows t (placed counts t intents) ≡ None →
        (line : Line) →
        Contains (planned_lines c rows t (placed counts t intents)) line
        ↔ IsPlanned c rows t (placed counts t intents) line }
{}

/// The hazards of the events that a draft opens are those of its puts of new events, in the order
/// of the intents.
pub fn opened_events_stand_in_order()
    ensures { (counts : List Count) (intents : List Intent) (t : ℕ) →
        map (λ (e : Event). e.hazard) (opened (placed counts t intents))
        ≡ filter_map hazard_opened intents }
{}

/// An office with no rows and no drawn numbers meets, at each minute, `Stands`: the condition on
/// rows and drawn numbers that has to hold between its products.
pub fn nothing_stands_at_first()
    ensures { (t : ℕ) → Stands [] [] t }
{}

/// If rows and drawn numbers meet `Stands`, the condition that has to hold between the products of
/// an office, at a minute, they meet it at each later minute.
pub fn standing_conditions_persist()
    ensures { (rows : List Row) (counts : List Count) (t u : ℕ) →
        t ≤ u → Stands rows counts t → Stands rows counts u }
{}

/// If a draft breaks no rule, each event that it opens has a number of at most 9,999. It is one
/// more than how many numbers of the event's hazard and year were drawn before the draft and are
/// drawn by the events that the draft opens earlier.
pub fn opened_events_are_drawn_in_order()
    ensures { (c : Category) (rows : List Row) (counts : List Count) (intents : List Intent)
        (t : ℕ) (earlier later : List Event) (e : Event) →
        broken c rows t (placed counts t intents) ≡ None →
        opened (placed counts t intents) ≡ earlier ++ e ∷ later →
        (e.etn
        ≡ count_of counts e.hazard e.year + count_by (is_numbered e.hazard e.year) earlier + 1)
        × (e.etn ≤ 9999) }
{}

/// If rows and drawn numbers meet `Stands`, the condition that has to hold between the products of
/// an office, and a draft breaks no rule, the rows after its product meet it too, with the numbers
/// of its new events drawn.
pub fn plans_keep_what_stands()
    ensures { (c : Category) (rows : List Row) (counts after : List Count) (intents : List Intent)
        (t : ℕ) →
        CanPlan rows counts c intents t → Stands rows counts t → IsStrictlySortedBy by_key rows →
        broken c rows t (placed counts t intents) ≡ None →
        DrawsAll counts after (opened (placed counts t intents)) →
        Stands (rows_after rows t (planned_lines c rows t (placed counts t intents))) after t }
{}

/// If no two lines of a product have the same event and the same zone, no two lines of its
/// correction have.
pub fn corrected_lines_are_distinct()
    ensures { (rows : List Row) (t : ℕ) (lines : List Line) →
        AllPairs (λ (l m : Line). ¬ ((l.event ≡ m.event) × (l.zone ≡ m.zone))) lines →
        AllPairs (λ (l m : Line). ¬ ((l.event ≡ m.event) × (l.zone ≡ m.zone)))
        (corrected_lines rows t lines) }
{}

/// If rows and drawn numbers meet `Stands`, the condition that has to hold between the products of
/// an office, and a correction breaks no rule, the rows after it meet it too, with the same drawn
/// numbers. No two lines of the corrected product may have the same event and zone.
pub fn corrections_keep_what_stands()
    ensures { (rows : List Row) (counts : List Count) (sent : Sent) (last letters : ℕ)
        (given : List EventTexts) (t : ℕ) →
        Stands rows counts t → IsStrictlySortedBy by_key rows →
        AllPairs (λ (l m : Line). ¬ ((l.event ≡ m.event) × (l.zone ≡ m.zone))) sent.lines →
        broken_correction rows t sent last letters given ≡ None →
        Stands (rows_after rows t (corrected_lines rows t sent.lines)) counts t }
{}
