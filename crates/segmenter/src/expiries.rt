//! When a segment expires.
ghost use Rattle.std.specs.Prelude.{◌≡◌, ◌≤◌};
ghost use Rattle.std.specs.List.{list_any};
ghost use Rattle.segmenter.specs.Expiry.{leaves_live, earlier_end, earlier_live_end, is_routine, has_long_expiry, expiry_of};

use hazard_types::{Action, End, Minute, SegLine};

/// How many minutes after its issue a segment expires at the latest, if it leaves a row live or has
/// a routine line.
const LONG: u32 = 480;

/// How many minutes after its issue any other segment expires.
const SHORT: u32 = 60;

/// Whether a line of this action leaves its event live in its zone: NEW, CON, EXA, EXT, EXB and COR
/// do.
fn leaves_live(action: Action) -> bool
    ensures { result ≡ leaves_live action }
{
    match action {
        Action::New | Action::Con | Action::Exa | Action::Ext | Action::Exb | Action::Cor => true,
        Action::Upg | Action::Can | Action::Exp | Action::Rou => false,
    }
}

/// Whether the action is ROU.
fn is_routine(action: Action) -> bool
    ensures { result ≡ is_routine action }
{
    matches!(action, Action::Rou)
}

/// Returns the earlier of a minute and an end. If the end is until further notice, this is the
/// minute.
fn earlier_end(minute: Minute, end: &End) -> Minute
    ensures { result ≡ earlier_end minute end.now }
{
    match end {
        End::At(end) if end.get() < minute.get() => *end,
        _ => minute,
    }
}

/// Returns the earlier of a minute and the line's end if the line leaves its event live and has an
/// end other than until further notice; otherwise the minute.
fn earlier_live_end(minute: Minute, line: &SegLine) -> Minute
    ensures { result ≡ earlier_live_end minute line.now }
{
    if leaves_live(line.action) {
        earlier_end(minute, &line.end)
    } else {
        minute
    }
}

/// Whether a segment with this line may stand for eight hours rather than one: the line is ROU, or
/// its action leaves the event live (NEW, CON, EXA, EXT, EXB or COR).
fn has_long_expiry(line: &SegLine) -> bool
    ensures { result ≡ has_long_expiry line.now }
{
    leaves_live(line.action) || is_routine(line.action)
}

/// Whether a segment with these lines may stand for eight hours rather than one: a line is ROU, or
/// its action leaves the event live (NEW, CON, EXA, EXT, EXB or COR).
fn any_has_long_expiry(lines: &[SegLine]) -> bool
    ensures { result ≡ list_any has_long_expiry lines.now }
{
    lines.iter().any(has_long_expiry)
}

/// Returns the minute at which a segment with these lines expires, if it is issued at `t`, which is
/// at most 52,000,000. It is the earliest of eight hours after `t` and the ends of the events that
/// the lines leave live. If they leave none live and no line is ROU, it is one hour after `t`.
///
/// Source: docs/PRODUCTS.md, "Segments".
pub fn expiry(lines: &[SegLine], t: Minute) -> Minute
    requires { t ≤ 52000000 }
    ensures { result ≡ expiry_of t lines.now }
{
    if !any_has_long_expiry(lines) {
        return Minute::new(t.get() + SHORT).unwrap();
    }
    let mut least = Minute::new(t.get() + LONG).unwrap();
    for line in lines {
        least = earlier_live_end(least, line);
    }
    least
}
