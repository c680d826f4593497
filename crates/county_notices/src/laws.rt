//! Laws of the notices. The functions do nothing; their contracts are the laws.
ghost use Rattle.std.specs.Prelude.{◌≡◌, ◌≤◌, ℕ, List, [], None, true};
ghost use Rattle.std.specs.List.{AllByRecursion};
ghost use Rattle.hazard_types.specs.declared.hazard.Hazard.{Hazard};
ghost use Rattle.event_life.specs.Openings.{numbers_of, opened_of};
ghost use Rattle.event_life.specs.Products.{Product};
ghost use Rattle.notice_json.specs.declared.command.Command.{Command};
ghost use Rattle.county_notices.specs.Apart.{AreMerged, IsOfDesk, IsOfOthers, desks_events, is_desks};
ghost use Rattle.county_notices.specs.Commands.{Noticed, broken};
ghost use Rattle.county_notices.specs.NoticeHistory.{after};
ghost use Rattle.county_notices.specs.Reading.{IsHistory, Noted, ReadsAsNoted, products_read};
ghost use Rattle.county_notices.specs.Standing.{IsStanding};

/// Law: a command that breaks no rule, of a number of at most 9999, leaves the office in good state
/// (`IsStanding`) if it was so before. That is: the rows are sorted by zone, then event, each pair
/// once; all are of watches; no two open events share hazard and number; and no event is of a later
/// year than the last accepted command.
pub fn accepted_commands_keep_the_rows()
    ensures { (s : Noticed) (c : Command) → IsStanding s → c.number ≤ 9999
        → broken s c ≡ None → IsStanding (after s c) }
{}

/// Law: for commands accepted one after another, from an office without rows on, a reader who has
/// nothing but the texts of their notices finds what the office has. Each text decodes as one
/// product, the life of each event in each zone is lawful, the events are opened with the numbers
/// that the commands gave, and the rows are those of the office.
pub fn notices_read_as_noted()
    ensures { (s : Noticed) (notes : List Noted) (z : Noticed) → IsStanding s → s.rows ≡ []
        → IsHistory s notes z → ReadsAsNoted s.by.office notes z.rows }
{}

/// Law: notices, and other products of hazards that the desk does not issue, do not change which
/// events of the desk's hazards are opened when they are put in between the desk's products. So the
/// numbers of each of these hazards, in the order of opening, are the same with the notices and
/// without.
pub fn notices_leave_the_desks_numbers()
    ensures opened { (desk others all : List Product) → AllByRecursion IsOfDesk desk
        → AllByRecursion IsOfOthers others → AreMerged desk others all
        → desks_events (opened_of all) ≡ opened_of desk }
    ensures numbers { (desk others all : List Product) → AllByRecursion IsOfDesk desk
        → AllByRecursion IsOfOthers others → AreMerged desk others all
        → (h : Hazard) (year : ℕ) → is_desks h ≡ true
        → numbers_of h year (opened_of all) ≡ numbers_of h year (opened_of desk) }
    ensures notices { (s : Noticed) (notes : List Noted) (z : Noticed) (desk all : List Product) →
        IsStanding s → s.rows ≡ [] → IsHistory s notes z → AllByRecursion IsOfDesk desk
        → AreMerged desk (products_read s.by.office notes) all
        → desks_events (opened_of all) ≡ opened_of desk }
{}
