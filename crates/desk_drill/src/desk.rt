//! The office of a drill with its counts, and the reader of its texts.
ghost use Rattle.std.specs.Prelude.{◌≡◌, ◌<◌, ◌≤◌, ◌++◌, ◌+◌, Some, IfOk, IfSome, IsSome, OnOk, length, option_map, set, slice_index};
ghost use Rattle.request_json.specs.Formed.{IsIssuePart};
ghost use Rattle.office_core.specs.Agreement.{ReadsAsTheBoard, texts_of};
ghost use Rattle.office_core.specs.Prepared.{MayCommit};
ghost use Rattle.office_core.specs.State.{last_number};
ghost use Rattle.office_core.specs.Step.{sent_reply, state_after};
ghost use Rattle.desk_drill.specs.Keeping.{HasReadOne, IsKept, drilled_of, issued_by};
ghost use Rattle.desk_drill.specs.Office.{Answers, first_drilled};
ghost use Rattle.desk_drill.specs.Requests.{desk_at};
ghost use Rattle.desk_drill.specs.Tellings.{breaches_in, shown_last};

use crate::requests::{DrillRequest, desk_at};
use crate::settings::drill_settings;
use crate::texts::TextReader;
use hazard_types::{Class, Event, List, Minute, Oom, Or};
use office_core::{Office, Prepared, Ready, offices_begin_in_agreement};
use office_types::{Edition, Reply, Request};
use std::alloc::Global;

/// The office of a drill with its counts. `answer` leads from one such office to the next.
#[derive(Drop)]
pub struct DrillDesk {
    pub office: Office,
    /// The reader, which has read the texts of all products.
    pub texts: TextReader,
    /// The number of each desk's last accepted request, 0 before the first.
    pub numbers: [u32; 4],
    /// The minute of the last entry, 0 before the first.
    pub last: Minute,
    /// The number of accepted requests.
    pub accepted: u32,
    /// The number of requests that broke a rule of the office.
    pub refused: u32,
    /// The events opened, in order.
    pub opened: List<Event>,
}

/// Returns minute 0, 2000-01-01T00:00Z, which stands for the minute of the last entry before there
/// is one.
fn first_minute() -> Minute
    ensures { result ≡ 0 }
{
    match Minute::new(0) {
        Some(minute) => minute,
        None => unreachable!(),
    }
}

/// Returns the events that the product of a prepared request opens, in the order in which the reply
/// names them. The request must have made a product.
fn events_of(prepared: &Prepared) -> &[Event]
    requires made { IsSome prepared.now.made }
    requires reply { prepared.now.entry.reply ≡ sent_reply prepared.now.made }
    ensures { option_map (λ made. made.opened) prepared.now.made ≡ Some result.now }
{
    match prepared.reply() {
        Reply::Sent(sent) => sent.events.as_slice(),
        _ => unreachable!(),
    }
}

/// Returns the text of the product that a prepared request made. The request must have made one.
fn text_of(prepared: &Prepared) -> &[u8]
    requires { IsSome prepared.now.made }
    ensures { option_map (λ made. made.sent.text) prepared.now.made ≡ Some result.now }
{
    match prepared.text() {
        Some(text) => text.as_slice(),
        None => unreachable!(),
    }
}

impl DrillDesk {
    /// Returns the office of a drill before its first request, with all counts at 0. It is office
    /// `KDRL`, with the desks `D1` to `D4` and 2,000 zones.
    ///
    /// # Errors
    ///
    /// Out of memory.
    #[tactic(auto, using(crate::proofs::Keeping::first_kept))]
    pub fn new(alloc: Global) -> Result<Self, Oom>
        ensures first { IfOk result (λ d. drilled_of d ≡ first_drilled) }
        ensures kept { IfOk result IsKept }
    {
        offices_begin_in_agreement();
        let settings = drill_settings(alloc)?;
        let office = Office::new(alloc, settings, Class::O, Edition::One)?;
        Ok(DrillDesk {
            office,
            texts: TextReader::new(alloc),
            numbers: [0; 4],
            last: first_minute(),
            accepted: 0,
            refused: 0,
            opened: List::new(alloc),
        })
    }

    /// Commits a prepared request of desk `place`, 0 for `D1` to 3 for `D4`, to the office, counts
    /// it as accepted, and has the reader read the text of its product. Errs if memory runs out;
    /// the counts are of no use then.
    fn accept(&mut self, alloc: Global, place: u32, prepared: Prepared) -> Result<(), Oom>
        requires may { MayCommit self.old.office prepared }
        requires made { IsSome prepared.made }
        requires reply { prepared.entry.reply ≡ sent_reply prepared.made }
        requires place { place < 4 }
        requires number { slice_index self.old.numbers place < 8192 }
        requires accepted { self.old.accepted < 8192 }
        requires products { length self.old.texts.reader.products < 8192 }
        requires faults { self.old.texts.faults < 8192 }
        ensures office { OnOk result (self.new.office.state
            ≡ state_after self.old.office.state prepared.entry prepared.made) }
        ensures heard { OnOk result
            (last_number self.new.office.state prepared.entry.desk ≡ prepared.entry.seq) }
        ensures reads { OnOk result (ReadsAsTheBoard self.new.office.state) }
        ensures numbers { OnOk result (self.new.numbers
            ≡ set self.old.numbers place (slice_index self.old.numbers place + 1)) }
        ensures minute { OnOk result (self.new.last ≡ prepared.entry.minute) }
        ensures accepted { OnOk result (self.new.accepted ≡ self.old.accepted + 1) }
        ensures refused { self.new.refused ≡ self.old.refused }
        ensures opened { OnOk result
            (option_map (λ made. self.old.opened ++ made.opened) prepared.made
            ≡ Some self.new.opened) }
        ensures texts { OnOk result (IfSome prepared.made
            (λ made. HasReadOne self.old.texts made.sent.text self.new.texts)) }
    {
        self.opened.extend(events_of(&prepared))?;
        self.texts.read(alloc, text_of(&prepared))?;
        self.numbers[place as usize] += 1;
        self.last = prepared.minute();
        self.accepted += 1;
        self.office.commit(prepared);
        Ok(())
    }

    /// Submits a request to the office, under the number after its desk's last accepted one, and
    /// counts it as accepted or refused. An accepted request is committed, its events are added to
    /// those opened, and the text of its product is read.
    ///
    /// # Errors
    ///
    /// Out of memory; the counts are of no use then.
    pub fn answer(&mut self, alloc: Global, r: DrillRequest) -> Result<(), Oom>
        requires kept { IsKept self.old }
        requires place { r.desk < 4 }
        requires form { IsIssuePart r.part }
        requires refused { self.old.refused < 8192 }
        ensures kept { OnOk result (IsKept self.new) }
        ensures answered { OnOk result
            (Answers (drilled_of self.old) (issued_by r) (drilled_of self.new)) }
        ensures refused { OnOk result (self.new.refused ≤ self.old.refused + 1) }
    {
        let DrillRequest { desk, part, minute } = r;
        let number = self.numbers[desk as usize] + 1;
        let request = Request::Issue(part);
        let reading = i64::from(minute.get());
        match self
            .office
            .prepare(alloc, desk_at(desk), number, &request, reading)
        {
            Ok(Ready::New(prepared)) => self.accept(alloc, desk, prepared),
            Ok(Ready::Again) => unreachable!(),
            Err(Or::No(_refusal)) => {
                self.refused += 1;
                Ok(())
            }
            Err(Or::OutOfMemory) => Err(Oom),
        }
    }

    /// Returns the number of rows that are live at the minute of the last entry (no line has ended
    /// them, and their end is later), as a reader finds them in the texts of the products alone.
    ///
    /// # Errors
    ///
    /// Out of memory.
    pub fn shown(&self, alloc: Global) -> Result<usize, Oom>
        requires { IsKept self.now }
        ensures { IfOk result (λ n. n ≡ shown_last (drilled_of self.now)) }
    {
        self.texts.shown(alloc, self.last)
    }

    /// Returns the number of faults that a reader finds in the texts of the products: VTEC lines
    /// that break a rule, gaps in the event numbers, and texts that do not decode, added up.
    ///
    /// # Errors
    ///
    /// Out of memory.
    pub fn breaches(&self, alloc: Global) -> Result<usize, Oom>
        requires { IsKept self.now }
        ensures { IfOk result (λ n. n ≡ breaches_in (texts_of self.now.office.state)) }
    {
        self.texts.breaches(alloc)
    }
}
