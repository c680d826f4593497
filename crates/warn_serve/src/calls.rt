//! The answer to one call at a shared office.
ghost use Rattle.std.specs.Prelude.{◌≡◌, List, ℕ, OnErr, length};
ghost use Rattle.request_json.specs.Formed.{HasForm};
ghost use Rattle.turn_lock.specs.Passes.{KeepsRights};
ghost use Rattle.warn_http.specs.Calls.{LiesIn, posted_in};
ghost use Rattle.warn_serve.specs.Answers.{Yields};
ghost use Rattle.warn_serve.specs.Calls.{AnswersAsked, AnswersPost, IsLooked, LooksInTurn, Submits};

use crate::answers::{AnswerBytes, look_answer, refused_answer, submit_answer};
use crate::service::Service;
use desk_traits::{Clock, Disk};
use hazard_types::{Oom, Or, Text};
use office_turns::{Look, SharedOffice, submit_in_turn};
use office_types::{Query, Refusal};
use request_json::{Asked, read_request};
use std::sync::Wait;
use turn_lock::Pass;
use warn_http::{Call, no_memory_answer};

impl<R: Wait, D: Disk, C: Clock, G> Service<'_, R, D, C, G> {
    /// Returns the text that a query asks to see, or why there is none: the refusal of the query,
    /// or out of memory. The clock is read in the same turn at the office. It may wait for the
    /// turn.
    fn look_in_turn(
        &self,
        pass: &mut Pass<SharedOffice<D>>,
        query: &Query,
    ) -> Result<Text, Or<Refusal>>
        requires pass { pass.old.lock ≡ self.now.lock.now }
        ensures { LooksInTurn (C.gives self.now.clock.now) query.now pass.old pass.new
            result }
    {
        self.lock.turn(
            self.rt,
            pass,
            Look {
                alloc: self.alloc,
                query,
                clock: self.clock,
            },
        )
    }

    /// Submits a request in a turn at the office, and returns the answer to its call, with
    /// `Connection: close` if `last`. It may wait for the turn. `Err` is out of memory for the
    /// answer's bytes, which comes only if nothing happened in the turn.
    fn answer_request(
        &self,
        pass: &mut Pass<SharedOffice<D>>,
        asked: &Asked,
        last: bool,
    ) -> Result<AnswerBytes, Oom>
        requires pass { pass.old.lock ≡ self.now.lock.now }
        requires form { HasForm asked.now }
        ensures kept { KeepsRights pass.old pass.new }
        ensures submitted { (answer : List ℕ)
            × Submits last pass.old pass.new answer (C.gives self.now.clock.now) asked.now
            × Yields result answer }
        ensures lost { OnErr result (pass.new.mine ≡ pass.old.mine) }
    {
        let outcome = submit_in_turn(self.rt, self.lock, pass, self.alloc, asked, self.clock);
        submit_answer(self.alloc, outcome, last)
    }

    /// Takes a query in a turn at the office, and returns the answer to its call, with `Connection:
    /// close` if `last`. It may wait for the turn. `Err` is out of memory for the answer's bytes.
    fn answer_look(
        &self,
        pass: &mut Pass<SharedOffice<D>>,
        query: Query,
        last: bool,
    ) -> Result<AnswerBytes, Oom>
        requires pass { pass.old.lock ≡ self.now.lock.now }
        ensures kept { KeepsRights pass.old pass.new }
        ensures looked { (answer : List ℕ)
            × IsLooked last pass.old pass.new answer (C.gives self.now.clock.now) query
            × Yields result answer }
        ensures lost { OnErr result (pass.new.mine ≡ pass.old.mine) }
    {
        let shown = self.look_in_turn(pass, &query);
        look_answer(self.alloc, query, shown, last)
    }

    /// Reads a request from the posted bytes, submits it in a turn at the office, and returns the
    /// answer, with `Connection: close` if `last`. Without a turn, bytes that are no request are
    /// refused, and the answer is that memory ran out if it does so as they are read. `Err` is out
    /// of memory for the answer's bytes, which comes only if nothing happened in the turn.
    fn answer_post(
        &self,
        pass: &mut Pass<SharedOffice<D>>,
        posted: &[u8],
        last: bool,
    ) -> Result<AnswerBytes, Oom>
        requires pass { pass.old.lock ≡ self.now.lock.now }
        ensures kept { KeepsRights pass.old pass.new }
        ensures posted { (answer : List ℕ)
            × AnswersPost last pass.old pass.new answer (C.gives self.now.clock.now) posted.now
            × Yields result answer }
        ensures lost { OnErr result (pass.new.mine ≡ pass.old.mine) }
    {
        match read_request(self.alloc, posted) {
            Ok(asked) => self.answer_request(pass, &asked, last),
            Err(Or::No(refusal)) => refused_answer(self.alloc, refusal, last),
            Err(Or::OutOfMemory) => Ok(AnswerBytes::Fixed(no_memory_answer(last))),
        }
    }

    /// Submits a call's request or takes its query in a turn at the office, for which it may wait,
    /// and returns the answer, with `Connection: close` if `last`. `bytes` has the call at its
    /// start, head and body; a body that is no request is refused without a turn.
    ///
    /// # Errors
    ///
    /// Out of memory for the answer's bytes; the call was judged, and nothing happened in its turn.
    pub(crate) fn answer_call(
        &self,
        pass: &mut Pass<SharedOffice<D>>,
        bytes: &[u8],
        call: Call,
        last: bool,
    ) -> Result<AnswerBytes, Oom>
        requires pass { pass.old.lock ≡ self.now.lock.now }
        requires within { LiesIn (length bytes.now) call }
        ensures kept { KeepsRights pass.old pass.new }
        ensures judged { (answer : List ℕ)
            × AnswersAsked last pass.old pass.new answer (C.gives self.now.clock.now) call
            (posted_in bytes.now call)
            × Yields result answer }
        ensures lost { OnErr result (pass.new.mine ≡ pass.old.mine) }
    {
        match call {
            Call::Post(span) => {
                let posted = &bytes[span.from..span.to];
                self.answer_post(pass, posted, last)
            }
            Call::Look(query) => self.answer_look(pass, query, last),
        }
    }
}
