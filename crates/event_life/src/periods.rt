//! Periods and rows at a minute.
ghost use Rattle.std.specs.Prelude.{◌≡◌};
ghost use Rattle.event_life.specs.Periods.{ends_after, is_not_long_past, same_end, overlaps, same_at, is_live, keeps_open};

use hazard_types::{End, Minute, Period, Row};

/// Whether the end is after the minute `t`; an end until further notice is after every minute.
pub fn ends_after(end: &End, t: Minute) -> bool
    ensures { result ≡ ends_after end.now t }
{
    match end {
        End::At(minute) => t.get() < minute.get(),
        End::Ufn => true,
    }
}

/// Whether the minute `t` is at most half an hour after the end, or before it; true for an end
/// until further notice.
pub fn is_not_long_past(end: &End, t: Minute) -> bool
    ensures { result ≡ is_not_long_past end.now t }
{
    match end {
        End::At(minute) => t.get() <= minute.get() + 30,
        End::Ufn => true,
    }
}

/// Whether two ends are equal.
pub fn same_end(a: &End, b: &End) -> bool
    ensures { result ≡ same_end a.now b.now }
{
    match a {
        End::At(m) => match b {
            End::At(n) => m.get() == n.get(),
            End::Ufn => false,
        },
        End::Ufn => match b {
            End::At(_) => false,
            End::Ufn => true,
        },
    }
}

/// Whether each of two periods begins before the other ends.
pub fn overlaps(p: &Period, q: &Period) -> bool
    ensures { result ≡ overlaps p.now q.now }
{
    ends_after(&q.end, p.begin) && ends_after(&p.end, q.begin)
}

/// Whether two periods are the same at `t`: their ends are equal, and their begins are equal or
/// both not after `t`.
///
/// Source: docs/PRODUCTS.md, "Which action a line gets".
pub fn same_at(t: Minute, p: &Period, q: &Period) -> bool
    ensures { result ≡ same_at t p.now q.now }
{
    let now = t.get();
    let (b, c) = (p.begin.get(), q.begin.get());
    same_end(&p.end, &q.end) && (b == c || (b <= now && c <= now))
}

/// Whether a row is live at the minute `t`: no line has ended it, and its end is after `t` or until
/// further notice.
pub fn is_live(row: &Row, t: Minute) -> bool
    ensures { result ≡ is_live t row.now }
{
    !row.ended && ends_after(&row.period.end, t)
}

/// Whether a row keeps its event open at the minute `t`: no line has ended it, and its end is until
/// further notice, or at most half an hour before `t`, or not before it.
pub fn keeps_open(row: &Row, t: Minute) -> bool
    ensures { result ≡ keeps_open t row.now }
{
    !row.ended && is_not_long_past(&row.period.end, t)
}
