//! Laws of segments, for the crates above. The functions do nothing; their contracts are the laws.
ghost use Rattle.std.specs.Prelude.{◌≡◌, ◌↔◌, ◌<◌, ℕ, List};
ghost use Rattle.std.specs.List.{AllPairs, Contains};
ghost use Rattle.hazard_types.specs.Places.{Place};
ghost use Rattle.hazard_types.specs.declared.line.Line.{Line};
ghost use Rattle.hazard_types.specs.declared.line.SegLine.{SegLine};
ghost use Rattle.hazard_types.specs.declared.line.Segment.{Segment};
ghost use Rattle.segmenter.specs.Expiry.{expiry_of, EndAfter};
ghost use Rattle.segmenter.specs.Groups.{lines_of};
ghost use Rattle.segmenter.specs.Laws.{IsSaid, IsOfLines, AreInOrder};
ghost use Rattle.segmenter.specs.Said.{lines_in_text, IsApart};
ghost use Rattle.segmenter.specs.Segments.{AreSegments};
ghost use Rattle.segmenter.specs.declared.groups.Group.{Group};

/// The segments of a product that have a zone have, taken together, exactly the lines that the
/// product has for that zone.
pub fn segments_say_the_lines()
    ensures { (lines : List Line) (segments : List Segment) →
        AreSegments lines segments →
        (z : Place) (l : SegLine) → IsSaid segments z l ↔ IsOfLines lines z l }
{}

/// The lines of each group (a zone with its lines of one FL event, or with all its other lines) are
/// by action, from UPG to ROU, then by event.
#[tactic(auto, using(crate::proofs::OrderLemmas::lines_in_order))]
pub fn lines_are_in_order()
    ensures { (lines : List Line) (g : Group) → AreInOrder (lines_of lines g) }
{}

/// A list of lines has no more than one list of segments: any two lists that are its segments are
/// equal.
pub fn segments_are_determined()
    ensures { (lines : List Line) (segments others : List Segment) →
        AreSegments lines segments → AreSegments lines others → segments ≡ others }
{}

/// The lines of the segments, each taken with each zone of its segment, are exactly the lines of
/// which the segments were made. If no two of the latter have the same event and zone, no two of
/// the former have, so each is there once.
pub fn segments_say_each_line_once()
    ensures lines { (lines : List Line) (segments : List Segment) →
        AreSegments lines segments →
        (line : Line) → Contains (lines_in_text segments) line ↔ Contains lines line }
    ensures once { (lines : List Line) (segments : List Segment) →
        AreSegments lines segments → AllPairs IsApart lines →
        AllPairs IsApart (lines_in_text segments) }
{}

/// A segment issued at the minute `t` expires after `t`, if each of its lines that leaves its event
/// live ends after `t` or until further notice.
#[tactic(auto, using(crate::proofs::ExpiryLemmas::later))]
pub fn expiry_is_later()
    ensures { (t : ℕ) (lines : List SegLine) → EndAfter t lines → t < expiry_of t lines }
{}
