//! Laws of lives over whole products. The functions do nothing; their contracts are the laws.
ghost use Rattle.std.specs.Prelude.{◌≡◌, ◌↔◌, not, true, false, ℕ, List, [], filter};
ghost use Rattle.std.specs.List.{Contains, IsDistinct};
ghost use Rattle.std.specs.List.Sorted.{IsStrictlySortedBy};
ghost use Rattle.hazard_types.specs.Orders.{by_event};
ghost use Rattle.hazard_types.specs.Same.{same_event};
ghost use Rattle.hazard_types.specs.Days.{year_of};
ghost use Rattle.hazard_types.specs.Places.{Place};
ghost use Rattle.hazard_types.specs.declared.codes.Class.{Class};
ghost use Rattle.hazard_types.specs.declared.hazard.Event.{Event};
ghost use Rattle.hazard_types.specs.declared.line.Line.{Line};
ghost use Rattle.hazard_types.specs.declared.line.Row.{Row};
ghost use Rattle.event_life.specs.Products.{Product, by_key, row_at, rows_after, rows_of, is_routine, is_upgrade, is_new, line_of, put_all, judged, lawful_of, end_upgraded, rows_for_higher};
ghost use Rattle.event_life.specs.Firsts.{row_by_first_line, is_lawful};
ghost use Rattle.event_life.specs.Lives.{IsLife, IsLawfulLife, actions_of, said_of, track_of};
ghost use Rattle.event_life.specs.Openings.{IsGapless, events_opened_by, opened_of, gaps_of};
ghost use Rattle.event_life.specs.Reordered.{are_lawful, AreApart, TouchAlike};
ghost use Rattle.event_life.specs.Printed.{HasOneOpen, zone_line_of};

/// If the first line of a product, other than ROU, on an event in a zone is lawful, the row of the
/// event in the zone after the product is the one that this line leaves. If it is not lawful, or
/// there is no such line, the row is as before the product.
pub fn first_line_decides()
    ensures { (rows : List Row) (t : ℕ) (lines : List Line) (e : Event) (z : Place) →
        row_at (rows_after rows t lines) e z ≡ row_by_first_line rows t lines e z }
{}

/// The order of a product's lines does not matter, if no two lines other than ROU are on the same
/// event in the same zone. Two lists with the same lines other than ROU are both lawful or both
/// not, and leave the same rows. The rows before are in order by zone, then event, each pair once.
pub fn order_of_lines_is_free()
    ensures lawful { (rows : List Row) (t : ℕ) (xs ys : List Line) →
        IsStrictlySortedBy by_key rows → AreApart xs → AreApart ys → TouchAlike xs ys →
        are_lawful rows t xs ≡ are_lawful rows t ys }
    ensures rows { (rows : List Row) (t : ℕ) (xs ys : List Line) →
        IsStrictlySortedBy by_key rows → AreApart xs → TouchAlike xs ys →
        rows_after rows t xs ≡ rows_after rows t ys }
{}

/// If the rows before a product are in order by zone, then event, each pair at most once, so are
/// the rows after it.
pub fn rows_stay_in_order()
    ensures { (rows : List Row) (t : ℕ) (lines : List Line) →
        IsStrictlySortedBy by_key rows → IsStrictlySortedBy by_key (rows_after rows t lines) }
{}

/// The lawful lines of an event in a zone, over any products, form spells one after another: the
/// first opens with NEW, EXA or EXB, each later one with EXA or EXB. A spell goes on with CON, COR
/// or EXT. Each spell but the last ends with CAN, EXP or UPG, and the last may.
pub fn lives_are_spells()
    ensures { (products : List Product) (e : Event) (z : Place) →
        IsLife (actions_of (track_of products e z)) }
{}

/// The lines on an event in a zone, over a list of products, are all lawful exactly if the list of
/// the lawful ones, each as action and issue minute, is the list of all of them. ROU lines do not
/// count.
pub fn lawful_lives_are_whole()
    ensures { (products : List Product) (e : Event) (z : Place) →
        IsLawfulLife products e z ↔ (track_of products e z ≡ said_of products e z) }
{}

/// No event is opened twice by lawful NEW lines, in one product or in two, counted over a list of
/// products from the first on.
pub fn events_open_once()
    ensures { (products : List Product) → IsDistinct same_event (opened_of products) }
{}

/// The events that lines open are those of the NEW lines among them, in the order of events
/// (hazard, number, year), each once; so lists with the same NEW lines open the same events. If all
/// lines of a product are lawful, its lawful lines open the same events as all its lines.
pub fn opened_events_are_of_the_lines()
    ensures alike { (xs ys : List Line) →
        ((line : Line) → is_new line.action ≡ true → Contains xs line ↔ Contains ys line) →
        events_opened_by xs ≡ events_opened_by ys }
    ensures order { (lines : List Line) → IsStrictlySortedBy by_event (events_opened_by lines) }
    ensures members { (lines : List Line) (e : Event) →
        Contains (events_opened_by lines) e
        ↔ ((line : Line) × Contains lines line × (is_new line.action ≡ true) × (line.event ≡ e)) }
    ensures lawful { (rows : List Row) (t : ℕ) (lines : List Line) →
        are_lawful rows t lines ≡ true →
        events_opened_by (lawful_of (judged rows t lines)) ≡ events_opened_by lines }
{}

/// The rows that a list of products leaves, with none before the first, are in order by zone, then
/// event, each pair at most once.
pub fn rows_of_are_in_order()
    ensures { (products : List Product) → IsStrictlySortedBy by_key (rows_of products) }
{}

/// The events that a list of products opens are numbered 1, 2, .. within each hazard and year, in
/// the order of opening, exactly if there is no gap among them. A gap is an event whose number is
/// not one more than the last of its hazard and year, or not 1 for the first.
pub fn gapless_without_gaps()
    ensures { (products : List Product) → IsGapless (opened_of products) ↔ (gaps_of products ≡ []) }
{}

/// For a lawful line other than ROU, `line_of` returns the same line from its zone, its P-VTEC
/// values and its H-VTEC values. This holds if just before its product no two open events have the
/// same hazard and number, and if the event of a NEW line is of the year of issue.
pub fn lawful_lines_read_back()
    ensures { (rows : List Row) (t : ℕ) (lines : List Line) (class : Class) (office : List ℕ)
        (line : Line) →
        is_routine line.action ≡ false → is_lawful rows t lines line ≡ true → HasOneOpen rows t →
        (is_new line.action ≡ true → line.event.year ≡ year_of t) →
        line_of rows t (zone_line_of class office line) ≡ line }
{}

/// The rows that `rows_for_higher` returns, in which the row of a higher rank that a UPG line needs
/// is looked for, are made in two steps. First the lawful lines of the product other than UPG and
/// ROU leave their rows in the rows before it. Then each row whose event and zone have a UPG line
/// in the product, lawful or not, is marked as ended.
pub fn higher_rows_are_lawful_rows()
    ensures { (rows : List Row) (t : ℕ) (lines : List Line) →
        rows_for_higher rows t lines ≡ end_upgraded lines (put_all rows t
        (filter (λ line. not (is_upgrade line.action)) (lawful_of (judged rows t lines))) rows) }
{}

/// The rows before a product, with the rows that its lawful lines by `judge` leave put into them,
/// are the rows after the product.
#[tactic(auto, unfolding(crate::specs::Products::rows_after))]
pub fn judged_lines_leave_the_rows_after()
    ensures { (rows : List Row) (t : ℕ) (lines : List Line) →
        put_all rows t (lawful_of (judged rows t lines)) rows ≡ rows_after rows t lines }
{}
