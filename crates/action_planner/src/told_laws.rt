//! Laws of numbers and texts, for offices that keep no counts and for readers of their products.
ghost use Rattle.std.specs.Prelude.{◌≡◌, ℕ, List};
ghost use Rattle.std.specs.List.{AllPairs};
ghost use Rattle.std.specs.List.Sorted.{IsStrictlySortedBy};
ghost use Rattle.hazard_types.specs.declared.codes.Category.{Category};
ghost use Rattle.hazard_types.specs.declared.hazard.Hazard.{Hazard};
ghost use Rattle.hazard_types.specs.declared.line.Line.{Line};
ghost use Rattle.hazard_types.specs.declared.line.Row.{Row};
ghost use Rattle.hazard_types.specs.declared.line.Segment.{Segment};
ghost use Rattle.office_types.specs.declared.request.Intent.{Intent};
ghost use Rattle.event_life.specs.Openings.{numbers_of, events_opened_by};
ghost use Rattle.event_life.specs.Products.{by_key, rows_after};
ghost use Rattle.event_life.specs.Reordered.{are_lawful};
ghost use Rattle.event_numbers.specs.declared.Count.{Count};
ghost use Rattle.event_numbers.specs.Counts.{count_of};
ghost use Rattle.segmenter.specs.Said.{lines_in_text, IsApart};
ghost use Rattle.segmenter.specs.Segments.{AreSegments};
ghost use Rattle.action_planner.specs.Conditions.{AreNumbered, CanPlan};
ghost use Rattle.action_planner.specs.Lines.{planned_lines};
ghost use Rattle.action_planner.specs.Placed.{placed, opened};
ghost use Rattle.action_planner.specs.Told.{counts_in};

/// For each hazard and year, the numbers of the events of a draft's NEW lines, each event once and
/// in the order of events, are the numbers of the events that the draft opens, in the order of its
/// intents.
pub fn new_lines_draw_the_numbers()
    ensures { (c : Category) (rows : List Row) (counts : List Count) (intents : List Intent)
        (t : ℕ) →
        CanPlan rows counts c intents t →
        (h : Hazard) (year : ℕ) →
        numbers_of h year (events_opened_by (planned_lines c rows t (placed counts t intents)))
        ≡ numbers_of h year (opened (placed counts t intents)) }
{}

/// If the events of each hazard and year that have rows are numbered from 1 without a gap up to the
/// count of drawn numbers, the rows alone determine these counts. So they also determine the events
/// of a draft's intents.
pub fn rows_tell_the_numbers()
    ensures counts { (rows : List Row) (counts : List Count) → AreNumbered rows counts →
        (h : Hazard) (year : ℕ) → count_of (counts_in rows) h year ≡ count_of counts h year }
    ensures placed { (rows : List Row) (counts : List Count) (intents : List Intent) (t : ℕ) →
        AreNumbered rows counts → placed (counts_in rows) t intents ≡ placed counts t intents }
{}

/// The lines of a product's text, in the order of its segments, are lawful if and only if the
/// plan's lines, from which the segments are made, are lawful in their own order. They leave the
/// same rows and open the same events. No two of the lines may have the same event and zone.
pub fn texts_say_what_their_lines_say()
    ensures lawful { (rows : List Row) (t : ℕ) (lines : List Line) (segments : List Segment) →
        IsStrictlySortedBy by_key rows → AreSegments lines segments → AllPairs IsApart lines →
        are_lawful rows t (lines_in_text segments) ≡ are_lawful rows t lines }
    ensures rows { (rows : List Row) (t : ℕ) (lines : List Line) (segments : List Segment) →
        IsStrictlySortedBy by_key rows → AreSegments lines segments → AllPairs IsApart lines →
        rows_after rows t (lines_in_text segments) ≡ rows_after rows t lines }
    ensures opened { (lines : List Line) (segments : List Segment) →
        AreSegments lines segments → events_opened_by (lines_in_text segments) ≡ events_opened_by lines }
{}
