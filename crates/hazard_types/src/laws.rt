//! Laws of equality, of orders, of stamps and of names, for the crates above. The functions do
//! nothing: their contracts are the laws.
ghost use Rattle.std.specs.Prelude.{◌≡◌, ◌<◌, ℕ, List, Some};
ghost use Rattle.std.specs.Bool.{Decides};
ghost use Rattle.std.specs.Cmp.{IsTotalOrder};
ghost use Rattle.std.specs.declared.cmp.Ordering.TheVariants.{Equal};
ghost use Rattle.std.specs.Prelude.{IsTrue, length, ◌≤◌};
ghost use Rattle.hazard_types.specs.Calendar.{stamp_of, stamp_at};
ghost use Rattle.hazard_types.specs.Codes.{HoldsOfIdentical, value_for_code};
ghost use Rattle.hazard_types.specs.Tables.{category_rows};
ghost use Rattle.hazard_types.specs.Hazards.{hazard_code};
ghost use Rattle.hazard_types.specs.Names.{category_code, zone_text, zone_at, hazard_at, event_text, event_at};
ghost use Rattle.hazard_types.specs.Orders.{by_hazard, by_event, by_end};
ghost use Rattle.hazard_types.specs.Places.{Place, IsPlace, are_letters, by_place};

use crate::codes::{Action, Category, Cause, Class, Severity, Status};
use crate::hazard::{Event, Hazard, Sig};
use crate::line::{Flood, Line, Row, SegLine};
use crate::period::End;
use crate::zone::Zone;

/// `==` of zones, hazards, events, H-VTEC values, lines, segment lines and rows holds exactly of
/// identical values.
#[tactic(auto, using(crate::proofs::Equality::zone_decides, crate::proofs::Equality::hazard_decides, crate::proofs::Equality::event_decides, crate::proofs::Equality::flood_decides, crate::proofs::Equality::line_decides, crate::proofs::Equality::seg_line_decides, crate::proofs::Equality::row_decides))]
pub fn equality_is_identity()
    ensures zones { (a b : Place) → Decides (⟦<Zone as PartialEq>⟧.eq a b) (a ≡ b) }
    ensures hazards { (a b : Hazard) → Decides (⟦<Hazard as PartialEq>⟧.eq a b) (a ≡ b) }
    ensures events { (a b : Event) → Decides (⟦<Event as PartialEq>⟧.eq a b) (a ≡ b) }
    ensures floods { (a b : Flood) → Decides (⟦<Flood as PartialEq>⟧.eq a b) (a ≡ b) }
    ensures lines { (a b : Line) → Decides (⟦<Line as PartialEq>⟧.eq a b) (a ≡ b) }
    ensures segment_lines { (a b : SegLine) → Decides (⟦<SegLine as PartialEq>⟧.eq a b) (a ≡ b) }
    ensures rows { (a b : Row) → Decides (⟦<Row as PartialEq>⟧.eq a b) (a ≡ b) }
{}

/// Zones, hazards, events and ends are totally ordered, and those that compare equal are identical.
#[tactic(auto, using(crate::proofs::OrderLaws::by_place_total, crate::proofs::OrderLaws::by_place_ties, crate::proofs::OrderLaws::by_hazard_total, crate::proofs::OrderLaws::by_hazard_ties, crate::proofs::OrderLaws::by_event_total, crate::proofs::OrderLaws::by_event_ties, crate::proofs::OrderLaws::event_cmp_is, crate::proofs::OrderLaws::end_cmp_is, crate::proofs::OrderLaws::by_end_total, crate::proofs::OrderLaws::by_end_ties))]
pub fn orders_are_total()
    ensures zones { IsTotalOrder by_place }
    ensures zone_ties { (a b : Place) → by_place a b ≡ Equal → a ≡ b }
    ensures hazards { IsTotalOrder by_hazard }
    ensures hazard_ties { (a b : Hazard) → by_hazard a b ≡ Equal → a ≡ b }
    ensures events { IsTotalOrder by_event }
    ensures event_order { (a b : Event) → ⟦<Event as Ord>⟧.cmp a b ≡ by_event a b }
    ensures event_ties { (a b : Event) → by_event a b ≡ Equal → a ≡ b }
    ensures end_order { (a b : End) → ⟦<End as Ord>⟧.cmp a b ≡ by_end a b }
    ensures ends { IsTotalOrder ⟦<End as Ord>⟧.cmp }
    ensures end_ties { (a b : End) → ⟦<End as Ord>⟧.cmp a b ≡ Equal → a ≡ b }
{}

/// The stamp of a minute is read as that minute, and bytes that are read as a minute are its stamp.
#[tactic(auto, using(crate::proofs::Stamps::stamp_spells, crate::proofs::Stamps::spells_stamp))]
pub fn stamps_are_inverse()
    ensures reads { (m : ℕ) → m < 52596000 → stamp_at (stamp_of m) ≡ Some m }
    ensures writes { (bytes : List ℕ) (m : ℕ) → stamp_at bytes ≡ Some m → bytes ≡ stamp_of m }
{}

/// Two classes, actions, significances, severities, causes, statuses, categories or hazards that
/// are equal by `==` are identical. `code_of` requires this of the values of its table.
#[tactic(auto, using(crate::proofs::Equality::class_one, crate::proofs::Equality::action_one, crate::proofs::Equality::sig_one, crate::proofs::Equality::severity_one, crate::proofs::Equality::cause_one, crate::proofs::Equality::status_one, crate::proofs::Equality::category_one, crate::proofs::Equality::hazard_one))]
pub fn values_of_tables_are_identical()
    ensures classes { HoldsOfIdentical ⟦<Class as PartialEq>⟧.eq }
    ensures actions { HoldsOfIdentical ⟦<Action as PartialEq>⟧.eq }
    ensures significances { HoldsOfIdentical ⟦<Sig as PartialEq>⟧.eq }
    ensures severities { HoldsOfIdentical ⟦<Severity as PartialEq>⟧.eq }
    ensures causes { HoldsOfIdentical ⟦<Cause as PartialEq>⟧.eq }
    ensures statuses { HoldsOfIdentical ⟦<Status as PartialEq>⟧.eq }
    ensures categories { HoldsOfIdentical ⟦<Category as PartialEq>⟧.eq }
    ensures hazards { HoldsOfIdentical ⟦<Hazard as PartialEq>⟧.eq }
{}

/// The text that is written for a zone, a hazard, a category or an event is read as that same
/// value. Of events this holds if the number is 1 to 9,999 and the year 2000 to 2099.
#[tactic(auto, using(crate::proofs::NamesBack::zone_back, crate::proofs::NamesBack::hazard_back, crate::proofs::NamesBack::event_back, crate::proofs::NamesBack::category_back))]
pub fn names_read_back()
    ensures zones { (z : Place) → IsPlace z → zone_at (zone_text z) ≡ Some z }
    ensures hazards { (h : Hazard) → IsTrue (are_letters h.phen) → length h.phen ≡ 2 →
        hazard_at (hazard_code h) ≡ Some h }
    ensures categories { (c : Category) → value_for_code category_rows (category_code c) ≡ Some c }
    ensures events { (e : Event) →
        IsTrue (are_letters e.hazard.phen) → length e.hazard.phen ≡ 2 →
        1 ≤ e.etn → e.etn ≤ 9999 → 2000 ≤ e.year → e.year ≤ 2099 →
        event_at (event_text e) ≡ Some e }
{}
