//! The script of days.
ghost use Rattle.std.specs.Prelude.{◌↔◌, IsTrue};
ghost use Rattle.worked_rows.specs.Days.{MaySend};

use crate::board::answers::{
    board_text, clash_text, plan_text, refusal_text, standing_text, told_text,
};
use crate::board::days::Day;
use crate::board::steps::{Step, step_of};
use crate::board::words::Unread;
use action_planner::{MOST_INTENTS, may_be_planned, no_texts};
use hazard_types::desk_hazards::facts;
use hazard_types::{Begin, Category, End, Hazard, Kind, Line, List, Minute, Oom, Or, Zone};
use office_types::{Desk, Draft, EventTexts, Intent, PutPart, Refusal, Target};
use std::alloc::Global;
use worked_lines::Work;

/// The last minute at which a draft is sent, since 2000-01-01 00:00 UTC.
const LAST_MINUTE: u32 = 52_000_000;

/// What is printed for a draft that no office would have, or that comes too early or too late.
const NO_FORM: &str = "no draft of this form\n";

/// What is printed if there is no draft.
const NO_DRAFT: &str = "no draft\n";

/// A day, the draft that is being written, and the minute at which it is sent.
#[derive(Drop)]
pub struct Script {
    day: Day,
    draft: Option<Draft>,
    minute: Minute,
}

/// Returns a draft of a category, with number 1, of desk A, without intents, last touched at
/// `minute`. It is never `None`, since `A` is the name of a desk.
fn new_draft(alloc: Global, category: Category, minute: Minute) -> Option<Draft> {
    Some(Draft {
        id: 1,
        owner: Desk::new(b"A")?,
        category,
        touched: minute,
        intents: List::new(alloc),
    })
}

/// Returns a copy of `text`, as what is printed for a line.
fn note(alloc: Global, text: &str) -> Result<String, Oom> {
    Ok(String::from_str(alloc, text)?)
}

/// Whether a draft may be sent at minute `t`: `t` is not before the last product and at most
/// 52,000,000, and the draft has at most 64 intents, each on a hazard that the desk issues in the
/// draft's category and with 1 to 600 distinct zones of the kind that the hazard needs. Whether its
/// plan would be refused is not tested.
fn may_be_sent(day: &Day, draft: &Draft, t: Minute) -> bool
    ensures { IsTrue result ↔ MaySend draft.now.category draft.now.intents day.now.last t }
{
    day.last().get() <= t.get() && t.get() <= LAST_MINUTE && may_be_planned(draft)
}

/// Returns the refusal of a draft or a correction as a line of JSON, or errs if memory ran out.
fn refused(alloc: Global, stop: Or<Refusal>) -> Result<String, Oom> {
    match stop {
        Or::No(refusal) => Ok(refusal_text(alloc, &refusal)?),
        Or::OutOfMemory => Err(Oom),
    }
}

/// Returns the UGC and P-VTEC strings of the product that a draft would be if it were sent at
/// minute `t`, or its refusal as a line of JSON. It returns `no draft of this form` on a line if
/// `t` is before the last product or above 52,000,000, or if the draft has more than 64 intents or
/// one that its category may not hold (`may_hold`).
fn preview_text(alloc: Global, day: &Day, draft: &Draft, t: Minute) -> Result<String, Oom> {
    if !may_be_sent(day, draft, t) {
        return note(alloc, NO_FORM);
    }
    match day.plan(alloc, draft, t) {
        Ok(plan) => plan_text(alloc, t, &plan),
        Err(stop) => refused(alloc, stop),
    }
}

/// Returns the lines `opened EVENT` and `texts EVENT "WHAT"` of the plan of a draft sent at minute
/// `t`, or its refusal as a line of JSON. It returns `no draft of this form` on a line if `t` is
/// before the last product or above 52,000,000, or if the draft has more than 64 intents or one
/// that its category may not hold (`may_hold`).
fn told(alloc: Global, day: &Day, draft: &Draft, t: Minute) -> Result<String, Oom> {
    if !may_be_sent(day, draft, t) {
        return note(alloc, NO_FORM);
    }
    match day.plan(alloc, draft, t) {
        Ok(plan) => Ok(told_text(alloc, &plan)?),
        Err(stop) => refused(alloc, stop),
    }
}

/// Corrects product `number`, from 1, at minute `t` with `texts`, and returns the codes of the
/// correction or its refusal as a line of JSON. It returns `no product` if there is no such
/// product, and `no draft of this form` if `t` is before the last product or above 52,000,000, each
/// on a line.
fn corrected(
    alloc: Global,
    day: &mut Day,
    number: u16,
    texts: &List<EventTexts>,
    t: Minute,
) -> Result<String, Oom> {
    let number = usize::from(number);
    if number == 0 || number > day.count() {
        return note(alloc, "no product\n");
    }
    if day.last().get() > t.get() || t.get() > LAST_MINUTE {
        return note(alloc, NO_FORM);
    }
    match day.correct(alloc, number - 1, texts, t) {
        Ok(plan) => plan_text(alloc, t, &plan),
        Err(stop) => refused(alloc, stop),
    }
}

/// Returns the intent to open an event of a hazard in one zone, from now to minute `end`, without
/// flood values and texts.
fn brief_put(alloc: Global, hazard: &Hazard, zone: Zone, end: Minute) -> Result<Intent, Oom> {
    Ok(Intent::Put(PutPart {
        target: Target::Fresh(*hazard),
        zones: List::from_slice(alloc, &[zone])?,
        begin: Begin::Now,
        end: End::At(end),
        flood: None,
        texts: no_texts(alloc),
    }))
}

/// Returns a draft for minute `t` with `count` puts of a hazard, each from now to the next minute
/// in a zone of its own, MDZ001 and on. Puts with a number above 999, which no zone has, are left
/// out. `None` if the desk does not issue the hazard, or if `t` is the last minute of 2099.
fn brief_draft(
    alloc: Global,
    hazard: &Hazard,
    count: u16,
    t: Minute,
) -> Result<Option<Draft>, Oom> {
    let Some(facts) = facts(*hazard) else {
        return Ok(None);
    };
    let Some(end) = Minute::new(t.get() + 1) else {
        return Ok(None);
    };
    let Some(mut draft) = new_draft(alloc, facts.opens, t) else {
        return Ok(None);
    };
    for number in 1..=count {
        if let Some(zone) = Zone::new(*b"MD", Kind::Z, number) {
            draft.intents.push(brief_put(alloc, hazard, zone, end)?)?;
        }
    }
    Ok(Some(draft))
}

/// Sends drafts of at most 64 puts, an hour apart from minute `from` on, until `count` events of a
/// hazard are opened, each for one minute. Returns how many were opened before the first draft that
/// may not be sent or is refused.
fn fill(
    alloc: Global,
    day: &mut Day,
    hazard: &Hazard,
    count: u16,
    from: Minute,
) -> Result<u16, Oom> {
    let mut done = 0u16;
    let mut t = from;
    for _draft in 0..=count / MOST_INTENTS as u16 {
        let some = (count - done).min(MOST_INTENTS as u16);
        let Some(draft) = brief_draft(alloc, hazard, some, t)? else {
            return Ok(done);
        };
        if some == 0 || !may_be_sent(day, &draft, t) {
            return Ok(done);
        }
        match day.send(alloc, &draft, t) {
            Ok(_plan) => {}
            Err(Or::No(_refusal)) => return Ok(done),
            Err(Or::OutOfMemory) => return Err(Oom),
        }
        done += some;
        let Some(next) = Minute::new(t.get() + 60) else {
            return Ok(done);
        };
        t = next;
    }
    Ok(done)
}

impl Script {
    /// Returns a script of a day without rows, event tracking numbers and products, without a
    /// draft, at minute 0.
    pub fn new(alloc: Global) -> Self {
        Script {
            day: Day::new(alloc),
            draft: None,
            minute: Minute::new(0).unwrap(),
        }
    }

    /// Adds an intent to the end of the draft and returns an empty text, or returns `no draft` on a
    /// line if there is none.
    fn add(&mut self, alloc: Global, intent: Intent) -> Result<String, Oom> {
        match &mut self.draft {
            Some(draft) => {
                draft.intents.push(intent)?;
                note(alloc, "")
            }
            None => note(alloc, NO_DRAFT),
        }
    }

    /// Sends the draft at its minute, and returns the codes of its product, or its refusal as a
    /// line of JSON. It returns `no draft` if there is none, and `no draft of this form` if it may
    /// not be sent then, each on a line. A draft that is not sent stays.
    fn send(&mut self, alloc: Global) -> Result<String, Oom> {
        let Some(draft) = self.draft.take() else {
            return note(alloc, NO_DRAFT);
        };
        let t = self.minute;
        if !may_be_sent(&self.day, &draft, t) {
            self.draft = Some(draft);
            return note(alloc, NO_FORM);
        }
        match self.day.send(alloc, &draft, t) {
            Ok(plan) => plan_text(alloc, t, &plan),
            Err(stop) => {
                self.draft = Some(draft);
                refused(alloc, stop)
            }
        }
    }

    /// Returns the lines `opened EVENT` and `texts EVENT "WHAT"` of the plan that the draft has at
    /// its minute, or `no draft` on a line if there is none. A draft that cannot be sent gives its
    /// refusal, or `no draft of this form`.
    fn tell(&self, alloc: Global) -> Result<String, Oom> {
        match &self.draft {
            Some(draft) => told(alloc, &self.day, draft, self.minute),
            None => note(alloc, NO_DRAFT),
        }
    }

    /// Returns the codes of the product that the draft would be if it were sent at its minute, or
    /// `no draft` on a line if there is none. A draft that cannot be sent gives its refusal, or `no
    /// draft of this form`.
    fn preview(&self, alloc: Global) -> Result<String, Oom> {
        match &self.draft {
            Some(draft) => preview_text(alloc, &self.day, draft, self.minute),
            None => note(alloc, NO_DRAFT),
        }
    }

    /// Begins a draft of a category without intents, to be sent at `minute`, in place of the one
    /// before, and returns an empty text.
    fn begin(&mut self, alloc: Global, minute: Minute, category: Category) -> Result<String, Oom> {
        self.draft = new_draft(alloc, category, minute);
        self.minute = minute;
        note(alloc, "")
    }

    /// Begins a day without rows, event tracking numbers and products, drops the draft, and returns
    /// an empty text.
    fn start(&mut self, alloc: Global) -> Result<String, Oom> {
        self.day = Day::new(alloc);
        self.draft = None;
        note(alloc, "")
    }

    /// Returns a line `ZONE EVENT BEGIN-END` for each row that is live at a minute, by zone, then
    /// event.
    fn board(&self, alloc: Global, minute: Minute) -> Result<String, Oom> {
        let rows = self.day.board().shown(alloc, minute)?;
        Ok(board_text(alloc, rows.as_slice())?)
    }

    /// Returns a line `ZONE EVENT BEGIN-END` for each row of a zone that is live at a minute, by
    /// event.
    fn zone(&self, alloc: Global, zone: Zone, minute: Minute) -> Result<String, Oom> {
        let rows = self.day.board().rows_of(alloc, zone, minute)?;
        Ok(board_text(alloc, rows.as_slice())?)
    }

    /// Returns the first clash, by zone, then by its two events, among the rows as `lines` at
    /// `minute` leave them, as a line of JSON, or `no clash` on a line if there is none. A clash is
    /// two events of one hazard family that are live in a zone at `minute`, with periods that
    /// overlap. The rows of the day stay as they are.
    fn clash(&self, alloc: Global, lines: &List<Line>, minute: Minute) -> Result<String, Oom> {
        let found = self.day.board().conflict(alloc, lines, minute)?;
        Ok(clash_text(alloc, &found)?)
    }

    /// Sends drafts of at most 64 puts, an hour apart from minute `from` on, until `count` events
    /// of a hazard are opened. Returns the line `opened N` with how many were opened before the
    /// first draft that is not sent.
    fn fill(
        &mut self,
        alloc: Global,
        hazard: &Hazard,
        count: u16,
        from: Minute,
    ) -> Result<String, Oom> {
        let done = fill(alloc, &mut self.day, hazard, count, from)?;
        Ok(format!(in alloc; "opened {done}\n")?)
    }

    /// Does a step, and returns what is printed for it, which is empty for a step that prints
    /// nothing.
    fn step(&mut self, alloc: Global, step: Step) -> Result<String, Oom> {
        match step {
            Step::Day => self.start(alloc),
            Step::At(minute, category) => self.begin(alloc, minute, category),
            Step::Add(intent) => self.add(alloc, intent),
            Step::Send => self.send(alloc),
            Step::Preview => self.preview(alloc),
            Step::Plan => self.tell(alloc),
            Step::Correct(minute, number, texts) => {
                corrected(alloc, &mut self.day, number, &texts, minute)
            }
            Step::Board(minute) => self.board(alloc, minute),
            Step::Zone(zone, minute) => self.zone(alloc, zone, minute),
            Step::Clash(lines, minute) => self.clash(alloc, &lines, minute),
            Step::Standing(hazard) => Ok(standing_text(alloc, self.day.board().standing(hazard))?),
            Step::Fill(hazard, count, from) => self.fill(alloc, &hazard, count, from),
        }
    }
}

impl Work for Script {
    /// Does the step of a line, and returns what is printed for it: `unread: LINE` if it is no
    /// step. A remark, which begins with `#`, and an empty line are returned as they are, with LF.
    fn work(&mut self, alloc: Global, line: &str) -> Result<String, Oom> {
        if line.is_empty() || line.starts_with('#') {
            return Ok(format!(in alloc; "{line}\n")?);
        }
        match step_of(alloc, line) {
            Ok(step) => self.step(alloc, step),
            Err(Or::No(Unread)) => Ok(format!(in alloc; "unread: {line}\n")?),
            Err(Or::OutOfMemory) => Err(Oom),
        }
    }
}
