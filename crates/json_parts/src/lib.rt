//! Parts of JSON lines that the readers and writers of requests and of county notices share: one
//! value read from bytes, members read, and the members of objects that are written.
//!
//! For `request_json` and `notice_json`; begin with `read_json` and `set_text`.
#![tactic(auto)]

mod members;
mod reading;

pub use members::{
    Members, put, refusal_members, set_event_text, set_number, set_signed, set_size, set_text,
    set_zone, text_of_members, text_value,
};
pub use reading::{given, read_json, text_at, wrong, zones_field};
