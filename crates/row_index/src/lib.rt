//! The rows of a long history in memory, found by zone and event, or by hazard and number, without
//! a walk over other rows. For readers of a stream of products, as `product_decoder` is one: begin
//! with `RowIndex::new`, then for each product `RowIndex::event_of`, `RowIndex::judge_parts` and
//! `RowIndex::leave_runs`. A row is unended while no line has ended it.
#![tactic(auto)]

mod apart;
mod collecting;
mod held;
mod higher;
mod index;
mod judging;
mod keys;
mod leaving;
mod live;
mod lives;
mod look;
mod numbers;
mod parts;
mod reach;
mod seats;
mod shared;
mod spoken;
mod standing;
mod verdicts;

pub use index::RowIndex;
pub use parts::EventKey;
pub use verdicts::{Part, Run, Verdict, expand};
