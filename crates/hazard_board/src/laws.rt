//! Laws of the rows of a board, for the crates above.
ghost use Rattle.std.specs.Prelude.{◌≡◌, ◌≤◌, ℕ, List, [], None, IsTrue};
ghost use Rattle.std.specs.List.Sorted.{IsStrictlySortedBy};
ghost use Rattle.hazard_types.specs.declared.line.Line.{Line};
ghost use Rattle.hazard_types.specs.declared.line.Row.{Row};
ghost use Rattle.event_life.specs.Printed.{HasOneOpen};
ghost use Rattle.event_life.specs.Products.{Product, by_key, rows_after, rows_of};
ghost use Rattle.event_life.specs.Reordered.{are_lawful};
ghost use Rattle.hazard_board.specs.Clashes.{least_clash};
ghost use Rattle.hazard_board.specs.Consistent.{IsConsistent, NoneIsAhead, AreOfTheYear, LeaveNoClash};
ghost use Rattle.hazard_board.specs.Held.{HaveNoneButHeld, rows_left};
ghost use Rattle.hazard_board.specs.Taken.{rows_taken};

/// If no line of a product has a breach, two ways of applying the lines at the issue minute `t`
/// leave the same rows. In one each line is judged by all rows; in the other only the row of its
/// event and zone is looked at, and the other rows are taken to allow the line.
pub fn lawful_lines_are_taken()
    ensures { (rows : List Row) (t : ℕ) (lines : List Line) →
        IsTrue (are_lawful rows t lines) → rows_taken rows t lines ≡ rows_after rows t lines }
{}

/// Suppose the lines of a product have no breach except `NumberHeld`, and `NoHigher` of UPG lines.
/// Then applying each line to the row of its event and zone, with the other rows taken to allow it,
/// gives the rows in which every line other than ROU has left its row. Lines without a breach are
/// such lines, and these are then the rows after their product.
pub fn lines_on_held_numbers_are_taken()
    ensures taken { (rows : List Row) (t : ℕ) (lines : List Line) →
        HaveNoneButHeld rows t [] lines → rows_taken rows t lines ≡ rows_left rows t lines }
    ensures lawful { (rows : List Row) (t : ℕ) (lines : List Line) →
        IsTrue (are_lawful rows t lines) →
        HaveNoneButHeld rows t [] lines × (rows_left rows t lines ≡ rows_after rows t lines) }
{}

/// Rows that are consistent at a minute are so at later ones. Consistent means that in a zone no
/// two unended rows of one family overlap, that no two open events have one hazard and number, and
/// that each row ends after its begin.
pub fn consistent_rows_stay_consistent()
    ensures { (rows : List Row) (t u : ℕ) → t ≤ u → IsConsistent rows t → IsConsistent rows u }
{}

/// Rows are consistent at a minute if in a zone no two unended rows of one family overlap, no two
/// events that are open then have one hazard and number, and each row ends after its begin. The
/// rows after a product are consistent at its issue minute `t` if the rows before it, in order by
/// zone, then event, are, no row's event is of a later year than `t`, the NEW lines are of events
/// of the year of `t`, and no two rows after the product clash: none are live at `t`, of one zone
/// and family and of different events, with periods that overlap. Lines in breach leave no row.
pub fn products_keep_rows_consistent()
    ensures { (rows : List Row) (t : ℕ) (lines : List Line) →
        IsStrictlySortedBy by_key rows → IsConsistent rows t → NoneIsAhead rows t →
        AreOfTheYear lines t → least_clash t (rows_after rows t lines) ≡ None →
        IsConsistent (rows_after rows t lines) t }
{}

/// If no row's event is of a later year than the issue minute `t` of a product, and the product's
/// NEW lines are of events of the year of `t`, then no event of the rows after the product is of a
/// later year. If no row's event is of a later year than a minute, none is of a later year than any
/// minute after it.
pub fn no_event_comes_ahead_of_its_year()
    ensures after { (rows : List Row) (t : ℕ) (lines : List Line) →
        IsStrictlySortedBy by_key rows → NoneIsAhead rows t → AreOfTheYear lines t →
        NoneIsAhead (rows_after rows t lines) t }
    ensures later { (rows : List Row) (t u : ℕ) → t ≤ u → NoneIsAhead rows t → NoneIsAhead rows u }
{}

/// An empty list of rows is consistent at any minute `t`, and no event in it is of a later year
/// than `t`. Consistent means that in a zone no two unended rows of one family overlap, that no two
/// open events have one hazard and number, and that each row ends after its begin.
pub fn no_rows_are_consistent()
    ensures consistent { (t : ℕ) → IsConsistent [] t }
    ensures behind { (t : ℕ) → NoneIsAhead [] t }
{}

/// The rows that a list of products leaves, taken in order from no rows, are consistent at minute
/// `u` if the first product is not issued before `t`, none before the one before it, the last not
/// after `u`, and just after each product no two rows clash at its issue minute. Consistent means
/// that in a zone no two unended rows of one family overlap, that no two open events have one
/// hazard and number, and that each row ends after its begin. Rows clash at a minute if they are
/// live then, of one zone and family and of different events, with periods that overlap.
pub fn read_rows_are_consistent()
    ensures { (products : List Product) (t u : ℕ) →
        LeaveNoClash [] t u products → IsConsistent (rows_of products) u }
{}

/// Among rows that are in order by zone, then event, and consistent at `t`, no two events that are
/// open at `t` have the same hazard and number. So the hazard and number that a line prints name
/// one open event at most.
pub fn consistent_rows_have_one_open_event()
    ensures { (rows : List Row) (t : ℕ) →
        IsStrictlySortedBy by_key rows → IsConsistent rows t → HasOneOpen rows t }
{}
