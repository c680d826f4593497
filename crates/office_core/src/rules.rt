//! The first rule that a request breaks on its desk, its number, the clock, its draft and its
//! parts.
ghost use Rattle.std.specs.Prelude.{◌≡◌, IfOk, false};
ghost use Rattle.office_core.specs.Rules.{broken_request, is_out, is_repeated, minute_of};

use crate::number_rules::{later, minute_at};
use crate::office::Office;
use hazard_types::{Minute, Oom};
use office_types::{Desk, Refusal, Request};
use std::alloc::Global;

impl Office {
    /// Whether `seq` is the number of the desk's last accepted request and `r` equals that request.
    /// It is `false` if the desk has no accepted request.
    pub(crate) fn is_repeated(&self, desk: &Desk, seq: u32, r: &Request) -> bool
        ensures { result ≡ is_repeated self.now.state desk.now seq r.now }
    {
        match self.said_by(desk) {
            Some(said) => said.seq == seq && said.request == *r,
            None => false,
        }
    }

    /// Returns the minute at which a request is accepted: the later of `reading` and the last
    /// entry's minute. `reading` is the clock's, in minutes since 2000-01-01T00:00Z UTC, from 0 to
    /// 52,000,000.
    pub(crate) fn minute_of(&self, reading: i64) -> Minute
        requires { is_out reading ≡ false }
        ensures { result ≡ minute_of self.now.state reading }
    {
        later(minute_at(reading), self.last)
    }

    /// Returns the refusal for the first rule that request `seq` of a desk breaks on its desk, its
    /// number, the clock, its draft or its parts, in this order, or `None` if it breaks none of
    /// them. `reading` is the clock's, in minutes since 2000-01-01T00:00Z UTC. Of a request that
    /// repeats the desk's last accepted one only the desk is judged.
    #[tactic(auto, unfolding(crate::specs::Rules::broken_request))]
    pub(crate) fn broken_request(
        &self,
        alloc: Global,
        desk: &Desk,
        seq: u32,
        r: &Request,
        reading: i64,
    ) -> Result<Option<Refusal>, Oom>
        ensures { IfOk result
            (λ found. found ≡ broken_request self.now.state desk.now seq r.now reading) }
    {
        if self.is_repeated(desk, seq, r) {
            return Ok(self.unknown_desk(desk));
        }
        let number = self.broken_number(desk, seq, reading);
        if number.is_some() {
            return Ok(number);
        }
        let draft = self.broken_draft(desk, r, self.minute_of(reading));
        if draft.is_some() {
            return Ok(draft);
        }
        self.broken_part(alloc, r)
    }
}
