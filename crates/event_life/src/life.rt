//! The life of an event in a zone, and one step of it.
ghost use Rattle.std.specs.Prelude.{◌≡◌, ◌≢◌, unwrap_or, min, [], ◌∷◌, not, false};
ghost use Rattle.hazard_types.specs.declared.codes.Action.TheVariants.{Rou};
ghost use Rattle.event_life.specs.declared.life.Breach.TheVariants.{TooLate, TooEarly, NoHigher};
ghost use Rattle.event_life.specs.Periods.{ends_after};
ghost use Rattle.event_life.specs.Table.{◌named◌, first_of, on_new, on_joining, on_continuing, on_ending, on_life, on_nothing, continued_period, opened_period, keeps_period, prints_begun, prints_to_come, prints_begin_as_due, moves_begin, cancels_late, expires_early, expires_late, flood_after, life_after_line, breach_of_line, life_after_lawful_line, step};

use crate::periods::{ends_after, same_at, same_end};
use hazard_types::{Action, End, Flood, Line, Minute, Period};

/// What the lines so far have left of an event in a zone.
#[derive(Clone, Copy, Debug, PartialEq, Eq)]
pub struct Life {
    pub period: Period,
    pub flood: Option<Flood>,
    /// Whether a line (CAN, EXP or UPG) has ended it; else it is unended.
    pub ended: bool,
}

/// The facts about other rows that a line is judged by.
#[derive(Clone, Copy, Debug, PartialEq, Eq)]
pub struct Around {
    /// The event has rows just before the product, ended or not.
    pub opened: bool,
    /// The event is open just before the product.
    pub going: bool,
    /// An event of an earlier year with this hazard and number is open just before the product.
    pub held: bool,
    /// A live row of the event just before the product has the period of the line.
    pub same: bool,
    /// After the product a live row of a higher rank of the family overlaps the line's row in its
    /// zone, or the hazard has no family, or the desk does not issue it.
    pub higher: bool,
}

/// Why a line is not lawful. An event is open while it has a row that no line has ended and whose
/// end is at most half an hour past.
///
/// Source: docs/ARCHIVE.md, "The lines".
#[derive(Clone, Copy, Debug, PartialEq, Eq)]
pub enum Breach {
    /// NEW of an event that has rows, or EXA or EXB in a zone where the event has an unended life.
    Reopened,
    /// EXA or EXB of an event that is not open.
    NotOpening,
    /// NEW with a number that an open event of an earlier year has.
    NumberHeld,
    /// Zeros where a begin must be printed, or a begin that has passed where zeros must be.
    ZeroBegin,
    /// A begin before the issue minute in a line that opens; EXP more than half an hour before the
    /// end, or of a row until further notice.
    TooEarly,
    /// An end that is not after the begin, or not after the issue minute.
    NoLength,
    /// Another period where the action keeps it (CON, COR, CAN, EXP, UPG), or EXA with a period
    /// that no live row of the event has.
    PeriodMoved,
    /// EXT that keeps the period, or EXB with the period of a live row of the event.
    PeriodSame,
    /// CON, COR or EXT where the event has no live row in the zone; CAN, EXP or UPG where it has no
    /// row, or one that a line has ended.
    NotLive,
    /// A begin after the issue minute for a row that has begun.
    BegunMoved,
    /// CAN with half an hour or less to the end, or after it; EXP more than half an hour after the
    /// end; UPG at the end or later.
    TooLate,
    /// UPG where no live row of a higher rank of the family overlaps after the product.
    NoHigher,
    /// A second line of an event and zone in one product. Found over the whole product only.
    Twice,
}

/// Returns the begin that a line prints, or the issue minute `t` if it prints zeros.
pub(crate) fn begin_of(line: &Line, t: Minute) -> Minute
    ensures { result ≡ unwrap_or line.now.begin t }
{
    match &line.begin {
        Some(begin) => *begin,
        None => t,
    }
}

/// Returns the first breach of a NEW line, or `None` if there is none. It is `Reopened` if `stands`
/// (the event has an unended life in the zone) or the event has any rows, else `NumberHeld` if an
/// open event of an earlier year has its number, `ZeroBegin` for a begin of zeros, `TooEarly` for a
/// begin before the issue minute `t`, or `NoLength` if the end is not after the begin. `around` has
/// what the other rows say of the event.
fn new_breach(stands: bool, line: &Line, t: Minute, around: Around) -> Option<Breach>
    ensures { result ≡ first_of (on_new stands line.now t around) }
{
    let begin = begin_of(line, t);
    if stands || around.opened {
        Some(Breach::Reopened)
    } else if around.held {
        Some(Breach::NumberHeld)
    } else if line.begin.is_none() {
        Some(Breach::ZeroBegin)
    } else if begin.get() < t.get() {
        Some(Breach::TooEarly)
    } else if !ends_after(&line.end, begin) {
        Some(Breach::NoLength)
    } else {
        None
    }
}

/// Returns the first breach of an EXA or EXB line, or `None` if there is none. It is `Reopened` if
/// `stands` (the event has an unended life in the zone), else `NotOpening` if the event is not
/// open, `TooEarly` for a begin before the issue minute `t`, `NoLength` if the end is not after the
/// begin, or `last` if `fails_last` is true. A begin of zeros counts as `t`; `around` has what the
/// other rows say of the event.
fn joining_breach(
    stands: bool,
    line: &Line,
    t: Minute,
    around: Around,
    fails_last: bool,
    last: Breach,
) -> Option<Breach>
    ensures { result ≡ first_of (on_joining stands line.now t around (fails_last, last)) }
{
    let begin = begin_of(line, t);
    if stands {
        Some(Breach::Reopened)
    } else if !around.going {
        Some(Breach::NotOpening)
    } else if begin.get() < t.get() {
        Some(Breach::TooEarly)
    } else if !ends_after(&line.end, begin) {
        Some(Breach::NoLength)
    } else if fails_last {
        Some(last)
    } else {
        None
    }
}

/// Returns the earlier of two minutes.
fn earlier(a: Minute, b: Minute) -> Minute
    ensures { result ≡ min a b }
{
    if a.get() <= b.get() { a } else { b }
}

/// Returns the period after a CON, COR or EXT line: the begin and the end that the line prints. If
/// it prints zeros for the begin, this is the earlier of the begin of `life`, what the lines before
/// left, and the issue minute `t`.
fn continued_period(life: &Life, line: &Line, t: Minute) -> Period
    ensures { result ≡ continued_period life.now line.now t }
{
    Period {
        begin: begin_of(line, earlier(life.period.begin, t)),
        end: line.end,
    }
}

/// Whether a line prints a begin at or before the minute `t`; false if it prints zeros.
fn prints_begun(line: &Line, t: Minute) -> bool
    ensures { result ≡ prints_begun line.now.begin t }
{
    match &line.begin {
        Some(begin) => begin.get() <= t.get(),
        None => false,
    }
}

/// Whether a line prints a begin after the minute `t`; false if it prints zeros.
fn prints_to_come(line: &Line, t: Minute) -> bool
    ensures { result ≡ prints_to_come line.now.begin t }
{
    match &line.begin {
        Some(begin) => t.get() < begin.get(),
        None => false,
    }
}

/// Returns the first breach of a CON, COR or EXT line, or `None` if there is none. It is `NotLive`
/// if a line has ended `life`, what the lines before left, or its end is not after the issue minute
/// `t`; else `ZeroBegin` for a printed begin not after `t`, `BegunMoved` for one after `t` though
/// `life` has begun, `NoLength` for an end not after the begin or `t`, or `last` if `fails_last` is
/// true. A begin of zeros counts as the earlier of `t` and the begin of `life`.
fn continuing_breach(
    life: &Life,
    line: &Line,
    t: Minute,
    fails_last: bool,
    last: Breach,
) -> Option<Breach>
    ensures { result ≡ first_of (on_continuing life.now line.now t (fails_last, last)) }
{
    let period = continued_period(life, line, t);
    if life.ended || !ends_after(&life.period.end, t) {
        Some(Breach::NotLive)
    } else if prints_begun(line, t) {
        Some(Breach::ZeroBegin)
    } else if prints_to_come(line, t) && life.period.begin.get() <= t.get() {
        Some(Breach::BegunMoved)
    } else if !(ends_after(&line.end, period.begin) && ends_after(&line.end, t)) {
        Some(Breach::NoLength)
    } else if fails_last {
        Some(last)
    } else {
        None
    }
}

/// Whether the period after a CON, COR or EXT line is the same as that of `life`, the one before
/// it, at the issue minute `t`. It is the same if the ends are equal, and the begins are equal or
/// both not after `t`.
fn keeps_period(life: &Life, line: &Line, t: Minute) -> bool
    ensures { result ≡ keeps_period life.now line.now t }
{
    same_at(t, &life.period, &continued_period(life, line, t))
}

/// Whether a line prints its begin as it must: a minute if `begin`, that of the row before, is
/// after the issue minute `t`, and zeros if it is not. Which minute it prints does not matter here.
fn prints_begin_as_due(line: &Line, begin: Minute, t: Minute) -> bool
    ensures { result ≡ prints_begin_as_due line.now.begin begin t }
{
    match &line.begin {
        Some(_) => t.get() < begin.get(),
        None => begin.get() <= t.get(),
    }
}

/// Whether a line prints a begin other than `begin`; zeros are no begin.
fn moves_begin(line: &Line, begin: Minute) -> bool
    ensures { result ≡ moves_begin line.now.begin begin }
{
    match &line.begin {
        Some(printed) => printed.get() != begin.get(),
        None => false,
    }
}

/// Returns the first breach of those that CAN, EXP and UPG lines share, or `None` if there is none.
/// It is `NotLive` if a line has ended `life`, then `ZeroBegin` for a printed begin unless that of
/// `life` is after the issue minute `t`, or for zeros if it is, then `PeriodMoved` for another
/// begin or end than that of `life`.
fn ending_breach(life: &Life, line: &Line, t: Minute) -> Option<Breach>
    ensures { result ≡ first_of (on_ending life.now line.now t []) }
{
    if life.ended {
        Some(Breach::NotLive)
    } else if !prints_begin_as_due(line, life.period.begin, t) {
        Some(Breach::ZeroBegin)
    } else if moves_begin(line, life.period.begin) || !same_end(&line.end, &life.period.end) {
        Some(Breach::PeriodMoved)
    } else {
        None
    }
}

/// Returns the breach that only CAN lines can have, or `None` if there is none. It is `TooLate` if
/// the issue minute `t` is half an hour or less before the end of `life`, or later; for an end
/// until further notice there is none.
fn can_breach(life: &Life, t: Minute) -> Option<Breach>
    ensures { result ≡ first_of ((cancels_late life.now.period.end t named TooLate) ∷ []) }
{
    let End::At(end) = &life.period.end else {
        return None;
    };
    if end.get() <= t.get() + 30 {
        Some(Breach::TooLate)
    } else {
        None
    }
}

/// Returns the breach that only EXP lines can have, or `None` if there is none. It is `TooEarly` if
/// the issue minute `t` is more than half an hour before the end of `life`, or if the end is until
/// further notice, and `TooLate` if `t` is more than half an hour after the end.
fn exp_breach(life: &Life, t: Minute) -> Option<Breach>
    ensures { result ≡ first_of ((expires_early life.now.period.end t named TooEarly)
        ∷ (expires_late life.now.period.end t named TooLate) ∷ []) }
{
    let End::At(end) = &life.period.end else {
        return Some(Breach::TooEarly);
    };
    if t.get() + 30 < end.get() {
        Some(Breach::TooEarly)
    } else if end.get() + 30 < t.get() {
        Some(Breach::TooLate)
    } else {
        None
    }
}

/// Returns the first breach that only UPG lines can have, or `None` if there is none. It is
/// `TooLate` if the issue minute `t` is at the end of `life` or later, else `NoHigher` if
/// `around.higher` is false, that is if no live row of a higher rank of the family overlaps.
fn upg_breach(life: &Life, t: Minute, around: Around) -> Option<Breach>
    ensures { result ≡ first_of ((not (ends_after life.now.period.end t) named TooLate)
        ∷ (not around.higher named NoHigher) ∷ []) }
{
    if !ends_after(&life.period.end, t) {
        Some(Breach::TooLate)
    } else if !around.higher {
        Some(Breach::NoHigher)
    } else {
        None
    }
}

/// Returns the first breach of a line whose event has a life in the zone, ended or not, or `None`
/// for a lawful or a ROU line. `t` is the issue minute, and `around` has what the other rows say of
/// the event. `Twice` is not found here.
fn breach_on_life(life: &Life, line: &Line, t: Minute, around: Around) -> Option<Breach>
    ensures { result ≡ first_of (on_life line.now.action life.now line.now t around) }
{
    let stands = !life.ended;
    match line.action {
        Action::New => new_breach(stands, line, t, around),
        Action::Exa => joining_breach(stands, line, t, around, !around.same, Breach::PeriodMoved),
        Action::Exb => joining_breach(stands, line, t, around, around.same, Breach::PeriodSame),
        Action::Con | Action::Cor => {
            continuing_breach(
                life,
                line,
                t,
                !keeps_period(life, line, t),
                Breach::PeriodMoved,
            )
        }
        Action::Ext => continuing_breach(
            life,
            line,
            t,
            keeps_period(life, line, t),
            Breach::PeriodSame,
        ),
        Action::Can => ending_breach(life, line, t).or(can_breach(life, t)),
        Action::Exp => ending_breach(life, line, t).or(exp_breach(life, t)),
        Action::Upg => ending_breach(life, line, t).or(upg_breach(life, t, around)),
        Action::Rou => None,
    }
}

/// Returns the first breach of a line whose event has no life in the zone, or `None` for a lawful
/// or a ROU line. It is `NotLive` unless the line is NEW, EXA, EXB or ROU. `t` is the issue minute,
/// and `around` has what the other rows say of the event.
fn breach_on_nothing(line: &Line, t: Minute, around: Around) -> Option<Breach>
    ensures { result ≡ first_of (on_nothing line.now.action line.now t around) }
{
    match line.action {
        Action::New => new_breach(false, line, t, around),
        Action::Exa => joining_breach(false, line, t, around, !around.same, Breach::PeriodMoved),
        Action::Exb => joining_breach(false, line, t, around, around.same, Breach::PeriodSame),
        Action::Rou => None,
        _ => Some(Breach::NotLive),
    }
}

/// Returns the first breach of a line, or `None` if it is lawful or ROU; `Twice` is not found here.
/// `life` is what the lines before have left of the event in the zone, or `None` if there were
/// none. `t` is the issue minute, and `around` has what the other rows say of the event.
#[tactic(auto, unfolding(crate::specs::Table::breach_of_line))]
pub(crate) fn breach_of_line(
    life: &Option<Life>,
    line: &Line,
    t: Minute,
    around: Around,
) -> Option<Breach>
    ensures { result ≡ breach_of_line life.now line.now t around }
{
    match life {
        Some(life) => breach_on_life(life, line, t, around),
        None => breach_on_nothing(line, t, around),
    }
}

/// Returns the H-VTEC values after a line: the line's own, or those of `life`, the one before, if
/// the line has none.
fn flood_after(life: &Life, line: &Line) -> Option<Flood>
    ensures { result ≡ flood_after life.now.flood line.now.flood }
{
    match &line.flood {
        Some(flood) => Some(*flood),
        None => life.flood,
    }
}

/// Returns the life that a NEW, EXA or EXB line opens: the line's period and H-VTEC values, not
/// ended. If the line prints zeros for the begin, this is the issue minute `t`.
fn opened_life(line: &Line, t: Minute) -> Life
    ensures { result
        ≡ record { period = opened_period line.now t; flood = line.now.flood; ended = false } }
{
    Life {
        period: Period {
            begin: begin_of(line, t),
            end: line.end,
        },
        flood: line.flood,
        ended: false,
    }
}

/// Returns the life after a lawful line, where `life`, ended or not, is the one before it and `t`
/// the issue minute. NEW, EXA and EXB start a life over, as would ROU, for which it is not meant;
/// CON, COR and EXT carry it on; CAN, EXP and UPG end it.
fn life_after_line(life: &Life, line: &Line, t: Minute) -> Life
    ensures { result ≡ life_after_line line.now.action life.now line.now t }
{
    match line.action {
        Action::Con | Action::Cor | Action::Ext => Life {
            period: continued_period(life, line, t),
            flood: flood_after(life, line),
            ended: false,
        },
        Action::Can | Action::Exp | Action::Upg => Life {
            period: life.period,
            flood: flood_after(life, line),
            ended: true,
        },
        Action::New | Action::Exa | Action::Exb | Action::Rou => opened_life(line, t),
    }
}

/// Returns the life after a lawful line of issue minute `t`. `life` is what the lines before have
/// left of the event in the zone; if it is `None`, the line opens one.
#[tactic(auto, unfolding(crate::specs::Table::life_after_lawful_line))]
pub(crate) fn life_after_lawful_line(life: &Option<Life>, line: &Line, t: Minute) -> Life
    ensures { result ≡ life_after_lawful_line life.now line.now t }
{
    match life {
        Some(life) => life_after_line(life, line, t),
        None => opened_life(line, t),
    }
}

/// Returns the life that a line leaves of `life`, which is `None` where the event has none in the
/// zone. `t` is the issue minute of the product, and `around` has what the other rows say of the
/// event. The line must not be ROU, which touches no life.
///
/// # Errors
///
/// The first breach of the line, in the order of the table. Never `Twice`.
///
/// Source: NWS Instruction 10-1703, P-VTEC action codes; docs/DECISIONS.md, "Lives".
pub fn life_step(life: Option<Life>, line: &Line, t: Minute, around: Around) -> Result<Life, Breach>
    requires { line.now.action ≢ Rou }
    ensures { result ≡ step life line.now t around }
{
    match breach_of_line(&life, line, t, around) {
        Some(breach) => Err(breach),
        None => Ok(life_after_lawful_line(&life, line, t)),
    }
}
