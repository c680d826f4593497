//! The calls of one link.
ghost use Rattle.std.specs.Prelude.{◌≡◌, ℕ, List, [], length, true};
ghost use Rattle.turn_lock.specs.Passes.{KeepsRights};
ghost use Rattle.warn_http.specs.Calls.{LiesIn, posted_in};
ghost use Rattle.warn_serve.specs.Answers.{bytes_of, refused_answer};
ghost use Rattle.warn_serve.specs.Calls.{AnswersAsked, AnswersCall, LosesCall};
ghost use Rattle.warn_serve.specs.Links.{IsServedLink};
ghost use Rattle.warn_serve.specs.Steps.{Sends, ServesNext};
ghost use Rattle.warn_serve.specs.Wholes.{AnswersLink, IsWhole};

use crate::answers::{AnswerBytes, refused_answer};
use crate::service::Service;
use call_inbox::{Inbox, NextCall, next_call};
use desk_links::{Gate, Link};
use desk_traits::{Clock, Disk, Failed};
use hazard_types::Oom;
use office_turns::SharedOffice;
use office_types::Refusal;
use std::alloc::Global;
use std::sync::Wait;
use turn_lock::{Pass, TurnLock};
use warn_http::{Call, Routes};

/// The most calls that are served over one link.
pub const MOST_CALLS: u64 = 10_000;

/// How a link ended.
#[derive(Clone, Copy, Debug, PartialEq, Eq)]
pub enum LinkEnd {
    /// The input ended between calls, a call closed the link, or one was refused by F1 to F6.
    Closed,
    /// The input ended within a call.
    Cut,
    /// `MOST_CALLS` calls were served, and none of them closed the link.
    Spent,
    /// A read or a write failed.
    LinkFault,
    /// Memory ran out for the inbox, for reading a call, or for the bytes of an answer.
    OutOfMemory,
}

/// Writes an answer, and returns how the link ended, or `None` if it goes on. It ends with `Closed`
/// if the answer is its `last` one, and with `LinkFault` if a write failed. Takes no memory.
fn finish<L: Link>(link: &mut L, answer: &AnswerBytes, last: bool) -> Option<LinkEnd>
    ensures { Sends ⊥ (L.state link.old) (L.state link.new) (bytes_of answer.now) last result }
{
    match answer.write(link) {
        Ok(()) if last => Some(LinkEnd::Closed),
        Ok(()) => None,
        Err(Failed) => Some(LinkEnd::LinkFault),
    }
}

/// Writes the answer to a refused call, after which the link closes, and returns how the link
/// ended, never `None`. If memory runs out for the answer, nothing is written and the link ends
/// with `OutOfMemory`.
fn refuse<L: Link>(alloc: Global, link: &mut L, refusal: Refusal) -> Option<LinkEnd>
    ensures { Sends (Unit {0}) (L.state link.old) (L.state link.new) (refused_answer refusal true)
        true result }
{
    match refused_answer(alloc, refusal, true) {
        Ok(answer) => finish(link, &answer, true),
        Err(Oom) => Some(LinkEnd::OutOfMemory),
    }
}

impl<R: Wait, D: Disk, C: Clock, G: Gate> Service<'_, R, D, C, G> {
    /// Answers a call, and returns how the link ended: `LinkFault` if a write failed, `OutOfMemory`
    /// if memory ran out for the answer, else `Closed` if `last`, else `None`, as the link goes on.
    /// `bytes` has the call at its start, head and body. Memory can run out for the answer only if
    /// nothing happened in the call's turn at the office, for which `pass` is the right.
    fn serve_call<L: Link>(
        &self,
        pass: &mut Pass<SharedOffice<D>>,
        link: &mut L,
        bytes: &[u8],
        call: Call,
        last: bool,
    ) -> Option<LinkEnd>
        requires pass { pass.old.lock ≡ self.now.lock.now }
        requires within { LiesIn (length bytes.now) call }
        ensures kept { KeepsRights pass.old pass.new }
        ensures sent { (answer : List ℕ)
            × AnswersAsked last pass.old pass.new answer (C.gives self.now.clock.now) call
            (posted_in bytes.now call)
            × Sends (pass.new.mine ≡ pass.old.mine) (L.state link.old) (L.state link.new) answer
            last result }
    {
        match self.answer_call(pass, bytes, call, last) {
            Ok(answer) => finish(link, &answer, last),
            Err(Oom) => Some(LinkEnd::OutOfMemory),
        }
    }

    /// Reads and answers the next call of a link, and returns how the link ended, or `None` if it
    /// goes on. `number` is the number of the call on its link, counted from 1, with which the
    /// gate, a hook before and after each call, is called.
    fn serve_next<L: Link>(
        &self,
        pass: &mut Pass<SharedOffice<D>>,
        inbox: &mut Inbox,
        link: &mut L,
        number: u64,
    ) -> Option<LinkEnd>
        requires pass { pass.old.lock ≡ self.now.lock.now }
        ensures kept { KeepsRights pass.old pass.new }
        ensures served { ServesNext (AnswersCall (C.gives self.now.clock.now))
            (LosesCall (C.gives self.now.clock.now)) (L.state link.old)
            (L.state link.new) pass.old pass.new inbox.old inbox.new result }
    {
        match next_call(self.alloc, self.routes, inbox, link) {
            NextCall::Call { call, used, last } => {
                self.gate.enter(number);
                let bytes = inbox.as_slice();
                let end = self.serve_call(pass, link, bytes, call, last);
                self.gate.leave(number);
                inbox.skip(used);
                end
            }
            NextCall::Refused(refusal) => refuse(self.alloc, link, refusal),
            NextCall::Closed => Some(LinkEnd::Closed),
            NextCall::Cut => Some(LinkEnd::Cut),
            NextCall::LinkFault => Some(LinkEnd::LinkFault),
            NextCall::OutOfMemory => Some(LinkEnd::OutOfMemory),
        }
    }

    /// Serves the calls of a link, at most 10,000, and returns how the link ended; that is `Spent`
    /// if 10,000 calls were served and none of them closed the link. `inbox` must be empty, and
    /// `pass`, the right to take turns at the office, must be one of its lock.
    fn serve_calls<L: Link>(
        &self,
        pass: &mut Pass<SharedOffice<D>>,
        inbox: &mut Inbox,
        link: &mut L,
    ) -> LinkEnd
        requires pass { pass.old.lock ≡ self.now.lock.now }
        requires empty { inbox.old ≡ [] }
        ensures kept { KeepsRights pass.old pass.new }
        ensures served { IsServedLink (AnswersCall (C.gives self.now.clock.now))
            (LosesCall (C.gives self.now.clock.now)) (L.state link.old)
            (L.state link.new) pass.old pass.new result }
    {
        for index in 0..MOST_CALLS {
            let number = index + 1;
            match self.serve_next(pass, inbox, link, number) {
                None => {}
                Some(end) => return end,
            }
        }
        LinkEnd::Spent
    }

    /// Serves a link: reads its calls, at most 10,000, answers each in a turn of its own at the
    /// office, at a reading of the clock taken in that turn, and returns how the link ended. `pass`
    /// is the right to take turns, and the hook `gate` is called before and after each call with
    /// its number, counted from 1. Whatever `inbox` had is dropped.
    ///
    /// docs/HTTP.md, "When the link closes".
    pub fn serve_link<L: Link>(
        &self,
        pass: &mut Pass<SharedOffice<D>>,
        inbox: &mut Inbox,
        link: &mut L,
    ) -> LinkEnd
        requires pass { pass.old.lock ≡ self.now.lock.now }
        ensures kept { KeepsRights pass.old pass.new }
        ensures whole { IsWhole result → AnswersLink (AnswersCall (C.gives self.now.clock.now))
            (L.state link.old) (L.state link.new) pass.old pass.new }
        ensures served { IsServedLink (AnswersCall (C.gives self.now.clock.now))
            (LosesCall (C.gives self.now.clock.now)) (L.state link.old)
            (L.state link.new) pass.old pass.new result }
    {
        inbox.clear();
        self.serve_calls(pass, inbox, link)
    }
}

/// Serves one link with routes and an inbox of its own: reads its calls, at most 10,000, answers
/// each in a turn of its own at the office in `lock`, for which `pass` is the right, and returns
/// how the link ended. The hook `gate` is called before and after each call with its number,
/// counted from 1. If memory runs out for the routes or the inbox, nothing is read and the link
/// ends with `OutOfMemory`.
pub fn serve_link<R: Wait, D: Disk, L: Link, C: Clock, G: Gate>(
    rt: &R,
    alloc: Global,
    lock: &TurnLock<SharedOffice<D>>,
    pass: &mut Pass<SharedOffice<D>>,
    link: &mut L,
    clock: &C,
    gate: &G,
) -> LinkEnd
    requires pass { pass.old.lock ≡ lock.now }
    ensures kept { KeepsRights pass.old pass.new }
    ensures whole { IsWhole result → AnswersLink (AnswersCall (C.gives clock.now))
        (L.state link.old) (L.state link.new) pass.old pass.new }
    ensures served { IsServedLink (AnswersCall (C.gives clock.now))
        (LosesCall (C.gives clock.now)) (L.state link.old)
        (L.state link.new) pass.old pass.new result }
{
    let Ok(mut inbox) = Inbox::new(alloc) else {
        return LinkEnd::OutOfMemory;
    };
    let Ok(routes) = Routes::new(alloc) else {
        return LinkEnd::OutOfMemory;
    };
    let service = Service {
        rt,
        alloc,
        lock,
        routes: &routes,
        clock,
        gate,
    };
    service.serve_link(pass, &mut inbox, link)
}
