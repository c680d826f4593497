//! The office in memory: its rules on desks, numbers, drafts and the parts of a request, what
//! becomes of a request, and the state after it. For the crates that keep an office in a journal,
//! and for training and drill. One begins with `Office::new`, `prepare` and `commit` for requests,
//! and `look` for what is shown.
//!
//! docs/DEFINITIONS.md names the definition of each contract; docs/DECISIONS.md, "The office".
#![tactic(auto)]

mod agreement_laws;
mod answer_laws;
mod changes;
mod committing;
mod copies;
mod draft_rules;
mod heard;
mod history_laws;
mod looking;
mod made;
mod making;
mod number_rules;
mod office;
mod part_rules;
mod prepared;
mod preparing;
mod replies;
mod rules;
mod series;
mod soundness_laws;
mod writing;

pub use agreement_laws::{offices_begin_in_agreement, products_keep_the_agreement};
pub use answer_laws::{
    a_look_has_one_answer, a_request_has_one_answer,
    accepted_requests_are_accepted_at_their_minute, what_is_prepared_may_wait,
};
pub use heard::{DeskRecord, LastRequest};
pub use history_laws::{accepted_requests_are_numbered_on, requests_stand_once};
pub use made::Made;
pub use office::Office;
pub use prepared::{DraftChange, Prepared, Ready};
pub use soundness_laws::{
    accepted_requests_keep_soundness, entries_come_in_order, offices_begin_sound,
    open_drafts_are_sound, requests_make_sound_products, sound_plans_may_be_written,
    sound_products_may_be_planned,
};
