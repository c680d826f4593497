//! An accepted request becomes part of the state.
ghost use Rattle.std.specs.Prelude.{◌≡◌, ◌≤◌, ◌<◌, IfSome, IsTrue, Some, length, position};
ghost use Rattle.std.specs.Vec.{vec_capacity, vec_len};
ghost use Rattle.std.specs.Str.{bytes_eq};
ghost use Rattle.hazard_board.specs.Board.{openings};
ghost use Rattle.event_life.specs.Reordered.{are_lawful};
ghost use Rattle.event_numbers.specs.Counts.{AreDrawnInOrder};
ghost use Rattle.hazard_board.specs.Consistent.{IsConsistent};
ghost use Rattle.office_core.specs.Agreement.{ReadsAsTheBoard};
ghost use Rattle.office_core.specs.Prepared.{HasPlace, MayCommit, begun_with, changed, draws};
ghost use Rattle.office_core.specs.State.{said_by};
ghost use Rattle.office_core.specs.Step.{heard_after, products_with, rows_with_made, state_after};

use crate::heard::{DeskRecord, LastRequest};
use crate::made::Made;
use crate::office::Office;
use crate::prepared::{DraftChange, Prepared};
use event_numbers::Numbers;
use hazard_board::Board;
use hazard_types::Minute;
use office_types::{Desk, Draft, Entry, Sent};

/// Makes the change in `drafts`, the open drafts, which must have capacity for 64. The change must
/// fit them: its place is an index of `drafts`, and for one more draft there are fewer than 64. It
/// takes no memory.
fn change_drafts(drafts: &mut Vec<Draft>, change: DraftChange)
    requires place { HasPlace change drafts.old.items }
    requires room { 64 ≤ vec_capacity drafts.old }
    ensures drafts { drafts.new.items ≡ changed change drafts.old.items }
    ensures room { 64 ≤ vec_capacity drafts.new }
{
    match change {
        DraftChange::Keep => {}
        DraftChange::Open(draft) => drafts.push_reserved(draft),
        DraftChange::Replace(place, draft) => drafts[place] = draft,
        DraftChange::Remove(place) => {
            drafts.remove(place);
        }
    }
}

/// Returns the index of the desk's record in `heard`, or `None` if no record is of this desk.
fn place_of(heard: &[DeskRecord], desk: &Desk) -> Option<usize>
    ensures { result ≡ position (λ h. bytes_eq h.desk desk.now) heard.now }
{
    heard.iter().position(|h| h.desk.bytes() == desk.bytes())
}

/// Records `said` as the desk's last accepted request. Nothing changes if no record is of this
/// desk.
fn record_request(heard: &mut Vec<DeskRecord>, desk: &Desk, said: LastRequest)
    ensures { heard.new.items ≡ heard_after heard.old.items desk.now said }
{
    if let Some(place) = place_of(heard, desk) {
        heard[place].said = Some(said);
    }
}

/// Returns how many drafts have been opened so far when the change is made. `begun` is how many
/// were before it; ids are given from 1 on, so for an opened draft it is the id.
fn begun_with(begun: u32, change: &DraftChange) -> u32
    ensures { result ≡ begun_with begun change.now }
{
    match change {
        DraftChange::Open(draft) => draft.id,
        DraftChange::Keep | DraftChange::Replace(..) | DraftChange::Remove(_) => begun,
    }
}

/// Adds the product that a request made at minute `t`, if it made one, to `products`, its lines to
/// the board, and the events that it opens to the counts of `numbers`. The memory for this must
/// have been taken before (`reserve`), and the events must have the next numbers, in order.
fn add_made_product(
    board: &mut Board,
    numbers: &mut Numbers,
    products: &mut Vec<Sent>,
    made: Option<Made>,
    t: Minute,
)
    requires lawful { IfSome made (λ made. IsTrue (are_lawful board.old.rows t made.sent.lines)) }
    requires numbers { IfSome made (λ made. AreDrawnInOrder numbers.old.counts made.opened) }
    requires rows_room { IfSome made (λ made. openings made.sent.lines ≤ board.old.spare) }
    requires numbers_room { IfSome made (λ made. length made.opened ≤ numbers.old.spare) }
    requires products_room { IfSome made
        (λ made. vec_len products.old < vec_capacity products.old) }
    ensures rows { board.new.rows ≡ rows_with_made board.old.rows t made }
    ensures numbers { draws numbers.old.counts numbers.new.counts made }
    ensures products { products.new.items ≡ products_with products.old.items made }
{
    if let Some(made) = made {
        board.apply(&made.sent.lines, t);
        numbers.draw(made.opened.as_slice());
        products.push_reserved(made.sent);
    }
}

impl Office {
    /// Makes an accepted request part of the state. This office prepared it, and has committed
    /// nothing since. The reply is stored as the one to the desk's last request; no memory is
    /// taken, and nothing can fail.
    pub fn commit(&mut self, p: Prepared)
        requires { MayCommit self.old p }
        ensures state { self.new.state ≡ state_after self.old.state p.entry p.made }
        ensures kept { said_by self.new.state p.entry.desk ≡ Some
            (record { seq = p.entry.seq; request = p.entry.request; reply = p.entry.reply }) }
        ensures reads { ReadsAsTheBoard self.new.state }
        ensures consistent { IsConsistent self.new.state.rows self.new.state.last }
    {
        let Prepared {
            entry,
            change,
            made,
        } = p;
        let Entry {
            minute,
            desk,
            seq,
            request,
            reply,
            ..
        } = entry;
        self.begun = begun_with(self.begun, &change);
        change_drafts(&mut self.drafts, change);
        add_made_product(
            &mut self.board,
            &mut self.numbers,
            &mut self.products,
            made,
            minute,
        );
        let said = LastRequest {
            seq,
            request,
            reply,
        };
        record_request(&mut self.heard, &desk, said);
        self.last = minute;
    }
}
