//! The answer to a request, with all memory that an accepted one needs.
ghost use Rattle.std.specs.Prelude.{◌≡◌, ◌≤◌, ◌<◌, ◌-◌, Some, None, Ok, Err, IfOk, OnOk, length};
ghost use Rattle.std.specs.Vec.{vec_capacity, vec_len};
ghost use Rattle.hazard_board.specs.Board.{openings};
ghost use Rattle.hazard_types.specs.declared.or.Or.TheVariants.{No};
ghost use Rattle.office_types.specs.declared.refusal.Refusal.{Refusal as Refused};
ghost use Rattle.office_types.specs.declared.request.Reply.{Reply as Answered};
ghost use Rattle.request_json.specs.Formed.{HasRequestForm};
ghost use Rattle.office_core.specs.Prepared.{HasPlace, IsReady, Readied, changed};
ghost use Rattle.office_core.specs.Rules.{drafts_full};
ghost use Rattle.office_core.specs.Step.{Refuses, Repeats, drafts_after, entry_of};
ghost use Rattle.office_core.specs.Views.{IsRoomier};
ghost use Rattle.office_core.specs.WellMade.{HasRoomForIf};
ghost use Rattle.office_core.specs.declared.prepared.Ready.TheVariants.{Again, New};

use crate::agreement_laws::products_keep_the_agreement;
use crate::copies::clone_request;
use crate::made::Made;
use crate::office::Office;
use crate::prepared::{Prepared, Ready};
use crate::soundness_laws::{
    accepted_requests_keep_soundness, entries_come_in_order, requests_make_sound_products,
    sound_products_may_be_planned,
};
use event_numbers::Numbers;
use hazard_board::{Board, openings};
use hazard_types::{Minute, Oom, Or};
use office_types::{Desk, Entry, Refusal, Request, Sent, equality_of_requests_is_identity};
use std::alloc::Global;

/// Takes the memory to commit the product `made`: in `board` for a row for each of its lines that
/// opens one, in `numbers` for a count for each event that it opens, and in `products` for one
/// more. What is stored in them stays as it is, on an error too.
fn make_room(
    board: &mut Board,
    numbers: &mut Numbers,
    products: &mut Vec<Sent>,
    made: &Made,
) -> Result<(), Oom>
    ensures rows { board.new.rows ≡ board.old.rows }
    ensures counts { numbers.new.counts ≡ numbers.old.counts }
    ensures products { products.new.items ≡ products.old.items }
    ensures more_rows { board.old.spare ≤ board.new.spare }
    ensures more_counts { numbers.old.spare ≤ numbers.new.spare }
    ensures more_products { vec_capacity products.old - vec_len products.old
        ≤ vec_capacity products.new - vec_len products.new }
    ensures rows_room { OnOk result (openings made.now.sent.lines ≤ board.new.spare) }
    ensures counts_room { OnOk result (length made.now.opened ≤ numbers.new.spare) }
    ensures products_room { OnOk result (1 ≤ vec_capacity products.new - vec_len products.new) }
{
    board.reserve(openings(made.sent.lines.as_slice()))?;
    numbers.reserve(made.opened.len())?;
    products.reserve(1)?;
    Ok(())
}

impl Office {
    /// Takes the memory that the board, the counts of numbers and the products need to commit
    /// `made`, the product of a request; nothing is taken if the request made none. The state stays
    /// as it is.
    fn reserve(&mut self, made: &Option<Made>) -> Result<(), Oom>
        ensures state { self.new.state ≡ self.old.state }
        ensures counts { self.new.counts ≡ self.old.counts }
        ensures room { IsRoomier self.old.room self.new.room }
        ensures ok { OnOk result (HasRoomForIf self.new.room made.now) }
    {
        match made {
            Some(made) => make_room(&mut self.board, &mut self.numbers, &mut self.products, made),
            None => Ok(()),
        }
    }

    /// Returns what `commit` needs of an accepted request: its entry for the journal with the
    /// reply, the change of the open drafts, and the product. `desk` sends it under the number
    /// `seq`, it is accepted at minute `t`, and `made` is the product that it makes, if any.
    fn prepared(
        &self,
        alloc: Global,
        desk: Desk,
        seq: u32,
        r: &Request,
        t: Minute,
        made: Option<Made>,
    ) -> Result<Prepared, Oom>
        requires room { drafts_full self.now.state r.now ≡ None }
        requires ids { self.now.state.begun < 4294967295 }
        ensures entry { IfOk result (λ p. p.entry ≡ entry_of self.now.state desk seq r.now t made) }
        ensures made { IfOk result (λ p. p.made ≡ made) }
        ensures drafts { IfOk result (λ p.
            changed p.change self.now.state.drafts ≡ drafts_after self.now.state desk r.now t) }
        ensures place { IfOk result (λ p. HasPlace p.change self.now.state.drafts) }
    {
        let change = self.change_of(alloc, &desk, r, t)?;
        let reply = self.reply_of(r, &made)?;
        let request = clone_request(r)?;
        let entry = Entry {
            minute: t,
            desk,
            seq,
            request,
            reply,
            edition: self.edition,
        };
        Ok(Prepared {
            entry,
            change,
            made,
        })
    }

    /// Returns the answer to request `r` of a desk, sent under the number `seq`: `New` with what is
    /// to be committed, or `Again` if it repeats the desk's last accepted request. `reading` is the
    /// clock's, in minutes since 2000-01-01T00:00Z UTC. All memory that `commit` needs is taken
    /// here, and the state stays as it is, whatever the answer.
    ///
    /// # Errors
    ///
    /// - `No` with the first broken rule (docs/REQUESTS.md, "Refusals").
    /// - `OutOfMemory`.
    pub fn prepare(
        &mut self,
        alloc: Global,
        desk: Desk,
        seq: u32,
        r: &Request,
        reading: i64,
    ) -> Result<Ready, Or<Refusal>>
        requires form { HasRequestForm r.now }
        requires ids { self.old.state.begun < 4294967295 }
        ensures state { self.new.state ≡ self.old.state }
        ensures counts { self.new.counts ≡ self.old.counts }
        ensures room { IsRoomier self.old.room self.new.room }
        ensures ready { (p : Readied) →
            result ≡ Ok (New p) → IsReady self.new desk seq r.now reading p }
        ensures again { result ≡ Ok Again
            → (kept : Answered) × Repeats self.old.state desk seq r.now kept }
        ensures refused { (x : Refused) →
            result ≡ Err (No x) → Refuses self.old.state desk seq r.now reading x }
    {
        // What holds of every office comes to the proof by this read.
        let _ = &self.settings;
        equality_of_requests_is_identity();
        requests_make_sound_products();
        entries_come_in_order();
        sound_products_may_be_planned();
        accepted_requests_keep_soundness();
        products_keep_the_agreement();
        if let Some(refusal) = self.broken_request(alloc, &desk, seq, r, reading)? {
            return Err(Or::No(refusal));
        }
        if self.is_repeated(&desk, seq, r) {
            return Ok(Ready::Again);
        }
        let t = self.minute_of(reading);
        let made = self.make(alloc, &desk, r, t)?;
        self.reserve(&made)?;
        let p = self.prepared(alloc, desk, seq, r, t, made)?;
        Ok(Ready::New(p))
    }
}
