//! The office.
ghost use Rattle.std.specs.Prelude.{◌≡◌, ◌≤◌, IfOk, true, length, map, option_map};
ghost use Rattle.desk_settings.specs.AreSettings.{HasForms};
ghost use Rattle.product_template.specs.Bodies.{is_training};
ghost use Rattle.office_core.specs.Histories.{MayFollow};
ghost use Rattle.office_core.specs.State.{first_state, in_edition, said_by, no_requests};

use crate::agreement_laws::offices_begin_in_agreement;
use crate::heard::{DeskRecord, LastRequest};
use crate::prepared::{DraftChange, Prepared};
use crate::soundness_laws::offices_begin_sound;
use desk_settings::Settings;
use event_numbers::Numbers;
use hazard_board::Board;
use hazard_types::{Class, List, Minute, Oom};
use office_types::{Desk, Draft, Edition, Reply, Sent};
use std::alloc::Global;
use std::marker::Model;

/// The most open drafts.
pub(crate) const MOST_DRAFTS: usize = 64;

/// An office: its settings, its board and numbers, the products that it sent, the open drafts, and
/// the last accepted request of each desk with its reply.
#[derive(Drop)]
pub struct Office {
    pub(crate) settings: Settings,
    pub(crate) class: Class,
    pub(crate) edition: Edition,
    pub(crate) board: Board,
    pub(crate) numbers: Numbers,
    pub(crate) products: Vec<Sent>,
    pub(crate) drafts: Vec<Draft>,
    pub(crate) begun: u32,
    pub(crate) heard: Vec<DeskRecord>,
    pub(crate) last: Minute,
}

impl Model for Office {
    ghost use Rattle.std.specs.Prelude.{◌≤◌, ◌-◌};
    ghost use Rattle.std.specs.Vec.{vec_len, vec_capacity};
    ghost use Rattle.office_core.specs.Agreement.{Agrees};
    ghost use Rattle.office_core.specs.Sound.{IsSound};
    ghost use Rattle.office_core.specs.State.{State};
    ghost use Rattle.office_core.specs.Views.{OfficeView, Room};

    ghost Value = { OfficeView };

    ghost view = { λ o. record {
      state = record { settings = o.settings; class = o.class; edition = o.edition; rows = o.board.rows; products = o.products.items; drafts = o.drafts.items; begun = o.begun; heard = o.heard.items; last = o.last };
      counts = o.numbers.counts;
      room = record { rows = o.board.spare; numbers = o.numbers.spare; products = vec_capacity o.products - vec_len o.products };
    } };

    ghost invariant = { λ o.
        IsSound (record { settings = o.settings; class = o.class; edition = o.edition; rows = o.board.rows; products = o.products.items; drafts = o.drafts.items; begun = o.begun; heard = o.heard.items; last = o.last }) o.numbers.counts
        × Agrees (record { settings = o.settings; class = o.class; edition = o.edition; rows = o.board.rows; products = o.products.items; drafts = o.drafts.items; begun = o.begun; heard = o.heard.items; last = o.last }) o.numbers.counts
        × (64 ≤ vec_capacity o.drafts) };
}

/// Returns minute 0, which stands for the minute of the last entry while there is no entry yet.
fn first_minute() -> Minute
    ensures { result ≡ 0 }
{
    match Minute::new(0) {
        Some(minute) => minute,
        None => unreachable!(),
    }
}

/// Returns a record of each of the desks, in the order of `desks`. None of the records has an
/// accepted request.
fn no_requests(alloc: Global, desks: &[Desk]) -> Result<List<DeskRecord>, Oom>
    ensures { IfOk result (λ heard. heard ≡ map no_requests desks.now) }
{
    let mut heard = List::new(alloc);
    for desk in desks {
        heard.push(DeskRecord {
            desk: *desk,
            said: None,
        })?;
    }
    Ok(heard)
}

impl Office {
    /// Returns an office before any request: without rows, products and drafts. `class` is the
    /// P-VTEC product class of its products, and `edition` the edition of their texts. It takes the
    /// memory for the most open drafts, 64.
    ///
    /// # Errors
    ///
    /// Out of memory.
    pub fn new(
        alloc: Global,
        settings: Settings,
        class: Class,
        edition: Edition,
    ) -> Result<Self, Oom>
        requires forms { HasForms settings }
        requires training { settings.any_zone ≡ true → is_training class ≡ true }
        ensures { IfOk result (λ office. office.state ≡ first_state settings class edition) }
    {
        offices_begin_sound();
        offices_begin_in_agreement();
        let heard = no_requests(alloc, settings.desks.as_slice())?;
        let drafts = Vec::with_capacity(alloc, MOST_DRAFTS)?;
        Ok(Office {
            settings,
            class,
            edition,
            board: Board::new(alloc),
            numbers: Numbers::new(alloc),
            products: Vec::new(alloc),
            drafts,
            begun: 0,
            heard: heard.into_vec(),
            last: first_minute(),
        })
    }

    /// Sets the edition in which product texts are written from now on. The caller never goes back
    /// from `Two` to `One`.
    pub fn set_edition(&mut self, edition: Edition)
        requires { MayFollow self.old.state.edition edition }
        ensures state { self.new.state ≡ in_edition edition self.old.state }
        ensures counts { self.new.counts ≡ self.old.counts }
        ensures room { self.new.room ≡ self.old.room }
    {
        self.edition = edition;
    }

    /// Returns the edition in which product texts are written from now on.
    pub fn edition(&self) -> Edition
        ensures { result ≡ self.now.state.edition }
    {
        self.edition
    }

    /// Returns the number of drafts opened so far, closed ones too. Ids are given from 1 on, so it
    /// is the id of the draft opened last, or 0 if there was none.
    pub fn opened_drafts(&self) -> u32
        ensures { result ≡ self.now.state.begun }
    {
        self.begun
    }

    /// Returns the number of products sent.
    pub fn products(&self) -> u32
        ensures { result ≡ length self.now.state.products }
    {
        self.products.len() as u32
    }

    /// Returns the stored reply to the desk's last accepted request, or `None` if it has none or
    /// the office has no such desk.
    pub fn kept(&self, desk: Desk) -> Option<&Reply>
        ensures { option_map (λ r. r.now) result
            ≡ option_map (λ said. said.reply) (said_by self.now.state desk) }
    {
        match self.said_by(&desk) {
            Some(said) => Some(&said.reply),
            None => None,
        }
    }
}
