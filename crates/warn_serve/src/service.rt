//! What the calls of a service share.
use desk_traits::Disk;
use office_turns::SharedOffice;
use std::alloc::Global;
use turn_lock::TurnLock;
use warn_http::Routes;

/// A shared office, and what its calls are read and answered with. It is made once and lent to
/// every worker.
#[derive(Drop)]
pub struct Service<'a, R, D: Disk, C, G> {
    pub rt: &'a R,
    pub alloc: Global,
    pub lock: &'a TurnLock<SharedOffice<D>>,
    pub routes: &'a Routes,
    /// The clock, read in the turn of each call.
    pub clock: &'a C,
    /// The hook called before each call is judged and after it was handled.
    pub gate: &'a G,
}
