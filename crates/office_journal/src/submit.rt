//! Submits requests to a `KeptOffice`.
ghost use Rattle.std.specs.Prelude.{◌≡◌, ◌⊎◌, ◌+◌, ◌-◌, ◌≤◌, ℕ, ℤ, List, Option, Some, None, IfOk, IfErr, IfSome, is_some, length, option_map, true};
ghost use Rattle.desk_traits.specs.Crash.{LeavesOnly};
ghost use Rattle.office_types.specs.declared.refusal.Refusal.{Refusal as Refused};
ghost use Rattle.office_types.specs.declared.refusal.Refusal.TheVariants.{JournalFull};
ghost use Rattle.office_types.specs.declared.request.Reply.{Reply as Answered};
ghost use Rattle.request_json.specs.Formed.{HasForm};
ghost use Rattle.request_json.specs.Replies.{reply_text};
ghost use Rattle.office_core.specs.Prepared.{IsReady};
ghost use Rattle.office_core.specs.State.{said_by};
ghost use Rattle.office_core.specs.Step.{Refuses, Repeats, entry_of};
ghost use Rattle.office_journal.specs.Changes.{Change, Leaves, body_of};
ghost use Rattle.office_journal.specs.Histories.{History};
ghost use Rattle.office_journal.specs.Kept.{Holds, disk_of, gate_of, state_of};
ghost use Rattle.office_journal.specs.Outcomes.{Becomes, IsAgain, IsUnkept, Names, ComesWith};
ghost use Rattle.office_journal.specs.Submitting.{IsAsked, IsOffered, MayEnter, entered};

use crate::answers::Answer;
use crate::entry_bodies::entry_body;
use crate::kept::KeptOffice;
use desk_traits::Disk;
use hazard_types::{Oom, Or, Text};
use journal_core::{AppendFault, Packet};
use office_core::{Prepared, Ready, accepted_requests_are_accepted_at_their_minute};
use office_types::{Desk, Refusal, Request};
use request_json::reply_text;
use std::alloc::Global;
use std::marker::Model;
use std::snapshot::Snapshot;

/// The reply to a request whose entry is in the journal, durably. Only `submit` makes one, after
/// its append, so no reply can be written before that.
///
/// Source: docs/DEFINITIONS.md, "The headline".
#[derive(Debug, Drop, PartialEq, Eq)]
pub struct KeptReply {
    text: Text,
}

impl Model for KeptReply {
    ghost use Rattle.std.specs.Prelude.{ℕ, List};

    ghost Value = { List ℕ };

    ghost view = { λ kept. kept.text };

    ghost inverse = { λ text. record { text = text } };
}

impl KeptReply {
    ghost use Rattle.std.specs.Prelude.{◌≡◌};

    /// Returns the text of the reply, as it is to be written to the desk.
    pub fn into_text(self) -> Text
        ensures { result ≡ self }
    {
        self.text
    }
}

/// Returns the pair of `answer` and, if that is `Accepted` or `DiskFault`, `p`, which is what was
/// prepared for the request; with any other answer the second part is `None`.
fn with_prepared(answer: Answer, p: Snapshot<Prepared>) -> (Answer, Option<Snapshot<Prepared>>)
    ensures answer { result.0 ≡ answer }
    ensures told { ComesWith answer p.value (option_map (λ told. told.value) result.1) }
{
    match answer {
        Answer::Accepted(text) => (Answer::Accepted(text), Some(p)),
        Answer::DiskFault => (Answer::DiskFault, Some(p)),
        other => (other, None),
    }
}

impl<D: Disk> KeptOffice<D> {
    /// Submits the request `r` of a desk under the desk's number `seq`, and returns the answer.
    /// `reading` is the clock's, in minutes since 2000-01-01T00:00Z UTC. All memory is taken before
    /// the first call of the disk.
    ///
    /// Source: docs/REQUESTS.md, "Desks and numbers" and "The disk and the memory".
    pub fn submit(
        &mut self,
        alloc: Global,
        desk: Desk,
        seq: u32,
        r: &Request,
        reading: i64,
    ) -> Answer
        requires form { HasForm (record { desk = desk; seq = seq; request = r.now }) }

        // On `Accepted` the request is durably in the journal; on `DiskFault` the disk failed in
        // this call, on a request that would be accepted. `Repeated` has the reply of the desk's
        // last request, `Refused` the first rule that is broken, of which the last is that the
        // entry has room. On all answers but the first two nothing changes.
        ensures becomes { Becomes D.seen D.crash D.faults self.old self.new
            (IsOffered (state_of self.old) desk seq r.now reading)
            (λ text. (kept : Answered) × Repeats (state_of self.old) desk seq r.now kept
            × (text ≡ reply_text kept)) (Refuses (state_of self.old) desk seq r.now reading)
            result }
        ensures later { D.faults (disk_of self.old) ≤ D.faults (disk_of self.new) }

        // A crash at any moment of the call leaves an image of the history, of the history and the
        // change that was pending, or of the history and the entry of this request.
        ensures any_moment { (file : List ℕ) (h : History) (pending : Option Change)
            → Holds D.seen D.crash self.old file h pending
            → LeavesOnly (D.crash (disk_of self.old)) (D.crash (disk_of self.new))
            (Leaves file h
            (λ change. (pending ≡ Some change)
            ⊎ IsAsked (state_of self.old) desk seq r.now reading change)) }
    {
        let (answer, _told) = self.submit_with_prepared(alloc, desk, seq, r, reading);
        answer
    }

    /// Submits the request `r` of a desk under the desk's number `seq`, and returns the answer.
    /// With `Accepted` or `DiskFault` it also returns what was prepared, for callers whose
    /// contracts name its entry, and with any other answer `None`. `reading` is the clock's, in
    /// minutes since 2000-01-01T00:00Z UTC.
    pub fn submit_with_prepared(
        &mut self,
        alloc: Global,
        desk: Desk,
        seq: u32,
        r: &Request,
        reading: i64,
    ) -> (Answer, Option<Snapshot<Prepared>>)
        requires form { HasForm (record { desk = desk; seq = seq; request = r.now }) }

        ensures becomes { Becomes D.seen D.crash D.faults self.old self.new
            (IsOffered (state_of self.old) desk seq r.now reading)
            (λ text. (kept : Answered) × Repeats (state_of self.old) desk seq r.now kept
            × (text ≡ reply_text kept)) (Refuses (state_of self.old) desk seq r.now reading)
            result.0 }

        // What was prepared has the entry that was added, or under which the disk failed. With
        // another answer there is none.
        ensures told { Names D.seen D.crash D.faults self.old self.new
            (IsOffered (state_of self.old) desk seq r.now reading)
            (λ text. (kept : Answered) × Repeats (state_of self.old) desk seq r.now kept
            × (text ≡ reply_text kept)) (Refuses (state_of self.old) desk seq r.now reading)
            result.0 (option_map (λ told. told.value) result.1) }
        ensures later { D.faults (disk_of self.old) ≤ D.faults (disk_of self.new) }
        ensures any_moment { (file : List ℕ) (h : History) (pending : Option Change)
            → Holds D.seen D.crash self.old file h pending
            → LeavesOnly (D.crash (disk_of self.old)) (D.crash (disk_of self.new))
            (Leaves file h
            (λ change. (pending ≡ Some change)
            ⊎ IsAsked (state_of self.old) desk seq r.now reading change)) }
    {
        self.a_crash_leaves_the_history();
        match self.office.prepare(alloc, desk, seq, r, reading) {
            Ok(ready) => match ready {
                Ready::New(p) => {
                    let told = Snapshot::of(&p);
                    with_prepared(self.append_prepared(alloc, desk, seq, r, p), told)
                }
                Ready::Again => (self.repeated_answer(alloc, desk), None),
            },
            Err(fault) => match fault {
                Or::No(refusal) => (Answer::Refused(refusal), None),
                Or::OutOfMemory => (Answer::OutOfMemory, None),
            },
        }
    }

    /// Returns the answer to a desk's last accepted request when it is sent again: `Repeated` with
    /// the reply that it had, or `OutOfMemory`. The desk must have an accepted request.
    fn repeated_answer(&self, alloc: Global, desk: Desk) -> Answer
        requires { is_some (said_by (state_of self.now) desk) ≡ true }
        ensures { IsAgain (said_by (state_of self.now) desk) result }
    {
        match self.kept_reply(alloc, desk) {
            Ok(text) => Answer::Repeated(KeptReply { text }),
            Err(_) => Answer::OutOfMemory,
        }
    }

    /// Returns the text of the reply to a desk's last accepted request; the desk must have one.
    /// Errs if memory runs out.
    fn kept_reply(&self, alloc: Global, desk: Desk) -> Result<Text, Oom>
        requires { is_some (said_by (state_of self.now) desk) ≡ true }
        ensures { IfOk result
            (λ text. IfSome (said_by (state_of self.now) desk)
            (λ said. text ≡ reply_text said.reply)) }
    {
        match self.office.kept(desk) {
            Some(reply) => reply_text(alloc, reply),
            None => unreachable!(),
        }
    }

    /// Returns the text of the reply to the prepared request `p`, and the body of its journal
    /// entry. `desk`, `seq` (the request's number) and the request `r` are those that `p` was
    /// prepared with. Errs if memory runs out.
    fn reply_and_body(
        &self,
        alloc: Global,
        desk: &Desk,
        seq: u32,
        r: &Request,
        p: &Prepared,
    ) -> Result<(Text, Text), Oom>
        requires { p.now.entry
            ≡ entry_of (state_of self.now) desk.now seq r.now p.now.entry.minute p.now.made }
        ensures reply { IfOk result (λ texts. texts.0 ≡ reply_text p.now.entry.reply) }
        ensures body { IfOk result (λ texts. texts.1 ≡ body_of (Change.entry (entered p.now))) }
    {
        let reply = reply_text(alloc, p.reply())?;
        let body = entry_body(alloc, desk, seq, r, self.office.edition(), p)?;
        Ok((reply, body))
    }

    /// Returns the text of the reply to the prepared request `p`, and the body of its journal entry
    /// ready to be appended. Errs with the answer to give: `Refused` with `JournalFull` if the
    /// entry has no room in the journal, or `OutOfMemory`. `desk`, `seq` (the request's number) and
    /// the request `r` are those that `p` was prepared with.
    fn reply_and_packet(
        &self,
        alloc: Global,
        desk: &Desk,
        seq: u32,
        r: &Request,
        p: &Prepared,
    ) -> Result<(Text, Packet), Answer>
        requires { p.now.entry
            ≡ entry_of (state_of self.now) desk.now seq r.now p.now.entry.minute p.now.made }
        ensures reply { IfOk result (λ written. written.0 ≡ reply_text p.now.entry.reply) }
        ensures body { IfOk result (λ written. written.1 ≡ body_of (Change.entry (entered p.now))) }
        ensures room { IfOk result
            (λ written. gate_of self.now + 6 + length written.1 ≤ 268435456) }
        ensures unkept { IfErr result (IsUnkept (gate_of self.now) (entered p.now)) }
    {
        let Ok((reply, body)) = self.reply_and_body(alloc, desk, seq, r, p) else {
            return Err(Answer::OutOfMemory);
        };
        if !self.journal.room(body.len()) {
            return Err(Answer::Refused(Refusal::JournalFull));
        }
        match Packet::new(alloc, body.as_slice()) {
            Ok(packet) => Ok((reply, packet)),
            Err(_) => Err(Answer::OutOfMemory),
        }
    }

    /// Appends the entry of the prepared request `p` to the journal, commits it to the office, and
    /// returns `Accepted` with its reply. If the entry has no room, the disk fails or memory runs
    /// out, it returns that as the answer, and the office's state is as before. `desk`, `seq` (the
    /// request's number) and the request `r` are those that `p` was prepared with.
    fn append_prepared(
        &mut self,
        alloc: Global,
        desk: Desk,
        seq: u32,
        r: &Request,
        p: Prepared,
    ) -> Answer
        requires form { HasForm (record { desk = desk; seq = seq; request = r.now }) }
        requires ready { (reading : ℤ) × IsReady self.old.office desk seq r.now reading p }
        ensures becomes { Becomes D.seen D.crash D.faults self.old self.new (λ x. x ≡ entered p)
            (λ text. ⊥) (λ x. ⊥) result }
        ensures later { D.faults (disk_of self.old) ≤ D.faults (disk_of self.new) }
        ensures any_moment { (file : List ℕ) (h : History) (pending : Option Change)
            → Holds D.seen D.crash self.old file h pending
            → LeavesOnly (D.crash (disk_of self.old)) (D.crash (disk_of self.new))
            (Leaves file h
            (λ change. (pending ≡ Some change) ⊎ (change ≡ Change.entry (entered p)))) }
    {
        self.a_crash_leaves_the_history();
        match self.reply_and_packet(alloc, &desk, seq, r, &p) {
            Ok((reply, packet)) => self.append(&packet, p, reply),
            Err(answer) => answer,
        }
    }

    /// Appends `packet`, the body of the entry of the prepared request `p`, to the journal, commits
    /// `p` to the office, and returns `Accepted` with `reply`. The journal must have room for the
    /// body. Returns `DiskFault` if the disk fails; the office's state is then as before.
    #[tactic(auto, using(crate::proofs::Entering::begun_next))]
    fn append(&mut self, packet: &Packet, p: Prepared, reply: Text) -> Answer
        requires ready { MayEnter self.old.office p }
        requires body { packet.now ≡ body_of (Change.entry (entered p)) }
        requires room { gate_of self.old + 6 + length packet.now ≤ 268435456 }
        requires reply { reply ≡ reply_text p.entry.reply }
        ensures becomes { Becomes D.seen D.crash D.faults self.old self.new (λ x. x ≡ entered p)
            (λ text. ⊥) (λ x. ⊥) result }
        ensures later { D.faults (disk_of self.old) ≤ D.faults (disk_of self.new) }
        ensures any_moment { (file : List ℕ) (h : History) (pending : Option Change)
            → Holds D.seen D.crash self.old file h pending
            → LeavesOnly (D.crash (disk_of self.old)) (D.crash (disk_of self.new))
            (Leaves file h
            (λ change. (pending ≡ Some change) ⊎ (change ≡ Change.entry (entered p)))) }
    {
        accepted_requests_are_accepted_at_their_minute();
        match self.journal.append(packet) {
            Ok(()) => {
                self.office.commit(p);
                self.entries += 1;
                Answer::Accepted(KeptReply { text: reply })
            }
            Err(AppendFault::Full) => unreachable!(),
            Err(AppendFault::DiskFault) => {
                self.notes = self.notes.saturating_add(1);
                Answer::DiskFault
            }
        }
    }
}
