//! A map by zone, fast for look-ups in order.
//!
//! For crates that hold a value in many zones. One begins with `ZoneMap::set`, `ZoneMap::get` and
//! `ZoneMap::list`.
#![tactic(auto)]

mod code;
mod map;
mod rising;

pub use map::ZoneMap;
