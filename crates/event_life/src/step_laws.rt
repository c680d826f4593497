//! Laws of one step: the bounds of each action, and what a lawful line leaves.
ghost use Rattle.std.specs.Prelude.{◌≡◌, ◌≢◌, ◌↔◌, ℕ, Option, Some, None, Err, IsOk, IfOk, IsSomeAnd, true, false};
ghost use Rattle.hazard_types.specs.declared.codes.Action.TheVariants.{New, Con, Exa, Ext, Exb, Upg, Can, Exp, Cor};
ghost use Rattle.hazard_types.specs.declared.line.Line.{Line};
ghost use Rattle.event_life.specs.declared.life.Life.{Life};
ghost use Rattle.event_life.specs.declared.life.Around.{Around};
ghost use Rattle.event_life.specs.declared.life.Breach.TheVariants.{Twice};
ghost use Rattle.event_life.specs.Table.{step};
ghost use Rattle.event_life.specs.Products.{is_routine};
ghost use Rattle.event_life.specs.Lives.{opens, goes_on, ends};
ghost use Rattle.event_life.specs.Bounds.{IsBefore, IsLongBefore, IsNear, OpensEvent, JoinsEvent, GoesOnFrom, HasEnded, Stays, EndsAsPrinted, IsOpened, IsCarriedOn, IsEnded};

/// NEW is lawful exactly if the event has no unended life in the zone and no rows in any, no open
/// event of an earlier year has its number, and the line prints a begin that is not before the
/// issue minute, with an end after it.
pub fn new_opens_an_event()
    ensures { (before : Option Life) (line : Line) (t : ℕ) (around : Around) → line.action ≡ New →
        IsOk (step before line t around) ↔ (HasEnded before × OpensEvent line t around) }
{}

/// EXA is lawful exactly if the event has no unended life in the zone and is open, the line's
/// period begins at the issue minute or later and ends after its begin, and a live row of the event
/// has the same period.
pub fn exa_joins_a_period_of_the_event()
    ensures { (before : Option Life) (line : Line) (t : ℕ) (around : Around) →
        line.action ≡ Exa →
        IsOk (step before line t around)
        ↔ (HasEnded before × JoinsEvent line t around × (around.same ≡ true)) }
{}

/// EXB is lawful exactly if the event has no unended life in the zone and is open, the line's
/// period begins at the issue minute or later and ends after its begin, and no live row of the
/// event has the same period.
pub fn exb_joins_at_another_period()
    ensures { (before : Option Life) (line : Line) (t : ℕ) (around : Around) →
        line.action ≡ Exb →
        IsOk (step before line t around)
        ↔ (HasEnded before × JoinsEvent line t around × (around.same ≡ false)) }
{}

/// CON and COR are lawful exactly if the event has a live row in the zone (no line has ended it,
/// and its end is after the issue minute), the line leaves the row's period the same, and its end
/// is after its begin and after the issue minute. They may print a begin only if it and the row's
/// begin are after the issue minute. Periods are the same if their ends are equal, and their begins
/// are equal or both not after the issue minute.
pub fn con_and_cor_keep_the_period()
    ensures con { (before : Option Life) (line : Line) (t : ℕ) (around : Around) →
        line.action ≡ Con →
        IsOk (step before line t around)
        ↔ IsSomeAnd before (λ life. GoesOnFrom life line t × Stays life line t) }
    ensures cor { (before : Option Life) (line : Line) (t : ℕ) (around : Around) →
        line.action ≡ Cor →
        IsOk (step before line t around)
        ↔ IsSomeAnd before (λ life. GoesOnFrom life line t × Stays life line t) }
{}

/// EXT is lawful exactly if the event has a live row in the zone (no line has ended it, and its end
/// is after the issue minute), the line changes the row's period, and its end is after its begin
/// and after the issue minute. It may print a begin only if it and the row's begin are after the
/// issue minute.
pub fn ext_changes_the_period()
    ensures { (before : Option Life) (line : Line) (t : ℕ) (around : Around) →
        line.action ≡ Ext →
        IsOk (step before line t around)
        ↔ IsSomeAnd before (λ life. GoesOnFrom life line t × (¬ Stays life line t)) }
{}

/// CAN is lawful exactly if the event has a row in the zone that no line has ended, the line prints
/// the row's period, and the issue minute is more than half an hour before the row's end. An end
/// until further notice is never too near.
pub fn can_comes_before_the_last_half_hour()
    ensures { (before : Option Life) (line : Line) (t : ℕ) (around : Around) →
        line.action ≡ Can →
        IsOk (step before line t around)
        ↔ IsSomeAnd before (λ life. EndsAsPrinted life line t × IsLongBefore t life.period.end) }
{}

/// EXP is lawful exactly if the event has a row in the zone that no line has ended, the line prints
/// the row's period, and the issue minute is at most half an hour before or after the row's end.
/// For an end until further notice it is never lawful.
pub fn exp_comes_within_half_an_hour_of_the_end()
    ensures { (before : Option Life) (line : Line) (t : ℕ) (around : Around) →
        line.action ≡ Exp →
        IsOk (step before line t around)
        ↔ IsSomeAnd before (λ life. EndsAsPrinted life line t × IsNear t life.period.end) }
{}

/// UPG is lawful exactly if the event has a row in the zone that no line has ended, the line prints
/// the row's period, the issue minute is before the row's end, and `around.higher` is true. The
/// last means that a live row of a higher rank of the family overlaps, or that the hazard has no
/// family or is not issued by the desk.
pub fn upg_comes_before_the_end()
    ensures { (before : Option Life) (line : Line) (t : ℕ) (around : Around) →
        line.action ≡ Upg →
        IsOk (step before line t around)
        ↔ IsSomeAnd before
        (λ life. EndsAsPrinted life line t × IsBefore t life.period.end × (around.higher ≡ true)) }
{}

/// A lawful NEW, EXA or EXB line leaves its printed period, CON, COR or EXT its printed period as
/// well, and CAN, EXP or UPG the period of the row before, ended. For a begin of zeros NEW, EXA and
/// EXB take the issue minute, and CON, COR and EXT the earlier of the issue minute and the begin of
/// the row before. The H-VTEC values are the line's own; if it has none, those of the row before
/// stay, except after NEW, EXA and EXB.
pub fn lawful_lines_leave()
    ensures opened { (before : Option Life) (line : Line) (t : ℕ) (around : Around) →
        opens line.action ≡ true → IfOk (step before line t around) (IsOpened line t) }
    ensures carried_on { (life : Life) (line : Line) (t : ℕ) (around : Around) →
        goes_on line.action ≡ true →
        IfOk (step (Some life) line t around) (IsCarriedOn life line t) }
    ensures ended { (life : Life) (line : Line) (t : ℕ) (around : Around) →
        ends line.action ≡ true → IfOk (step (Some life) line t around) (IsEnded life line) }
{}

/// Where a line has ended the life of an event in a zone, of the lines other than ROU only NEW, EXA
/// and EXB may be lawful. These are judged, and leave a life, as if there had been none.
pub fn ended_lives_are_opened_anew()
    ensures opening { (life : Life) (line : Line) (t : ℕ) (around : Around) →
        is_routine line.action ≡ false → life.ended ≡ true → IsOk (step (Some life) line t around) →
        opens line.action ≡ true }
    ensures anew { (life : Life) (line : Line) (t : ℕ) (around : Around) →
        opens line.action ≡ true → life.ended ≡ true →
        step (Some life) line t around ≡ step None line t around }
{}

/// `life_step`, which judges a line by itself, never errs with `Twice`. That breach, a second line
/// of an event and zone in one product, is found only over the whole product.
pub fn steps_are_never_twice()
    ensures { (before : Option Life) (line : Line) (t : ℕ) (around : Around) →
        step before line t around ≢ Err Twice }
{}
