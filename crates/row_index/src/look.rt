//! What is read off a line, a life or two of them, without a walk.
ghost use Rattle.std.specs.Prelude.{◌≡◌, option_map};
ghost use Rattle.event_life.specs.Lives.{opens};
ghost use Rattle.row_index.specs.Runs.{in_zone, is_alike, same_life};
ghost use Rattle.row_index.specs.Steps.{asks_alike, nothing_around, has_same_period};

use event_life::{Around, Life, opened_period};
use hazard_types::{Action, Event, Line, Minute, Zone};

/// Returns a copy of a line with `zone` as its zone.
pub fn in_zone(line: &Line, zone: &Zone) -> Line
    ensures { result ≡ in_zone line.now zone.now }
{
    Line {
        action: line.action,
        event: line.event,
        zone: *zone,
        begin: line.begin,
        end: line.end,
        flood: line.flood,
    }
}

/// Whether two lines differ in their zones at most.
pub fn is_alike(a: &Line, b: &Line) -> bool
    ensures { result ≡ is_alike a.now b.now }
{
    in_zone(a, &b.zone) == *b
}

/// Returns a copy of the life, if there is one.
pub fn life_of(life: Option<&Life>) -> Option<Life>
    ensures { result ≡ option_map (λ l. l.now) life.entry }
{
    match life {
        Some(life) => Some(*life),
        None => None,
    }
}

/// Whether the two lives are equal, or both are `None`.
pub fn same_life(a: &Option<Life>, b: &Option<Life>) -> bool
    ensures { result ≡ same_life a.now b.now }
{
    *a == *b
}

/// Returns the facts about other rows for a line that needs none but `higher`: the others are
/// false.
pub fn nothing_around(higher: bool) -> Around
    ensures { result ≡ nothing_around higher }
{
    Around {
        opened: false,
        going: false,
        held: false,
        same: false,
        higher,
    }
}

/// Whether the action is NEW, EXA or EXB, which give the row a period of their own, whatever row
/// was there before.
pub fn opens(action: &Action) -> bool
    ensures { result ≡ opens action.now }
{
    matches!(action, Action::New | Action::Exa | Action::Exb)
}

/// Whether two lines of a product issued at `t` have the same action and event and would open the
/// same period, so that the facts about other rows are the same for both.
pub fn asks_alike(t: Minute, a: &Line, b: &Line) -> bool
    ensures { result ≡ asks_alike t a.now b.now }
{
    a.action == b.action && a.event == b.event && opened_period(a, t) == opened_period(b, t)
}

/// Whether both lives have the same period and neither is ended. False if `before` is `None`.
pub fn has_same_period(before: &Option<Life>, life: &Life) -> bool
    ensures { result ≡ has_same_period before.now life.now }
{
    match before {
        Some(old) => old.period == life.period && !old.ended && !life.ended,
        None => false,
    }
}
