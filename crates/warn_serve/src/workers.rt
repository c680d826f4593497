//! A worker over the links of one door.
ghost use Rattle.std.specs.Prelude.{◌≡◌, ◌≤◌, ◌<◌, ◌^◌, IfOk, OnErr};
ghost use Rattle.turn_lock.specs.Passes.{KeepsRights};
ghost use Rattle.warn_serve.specs.Calls.{AnswersCall, LosesCall};
ghost use Rattle.warn_serve.specs.Workers.{HasNone, HasWorked, ServesOne, count_if_out_of_memory};

use crate::links::LinkEnd;
use crate::service::Service;
use call_inbox::Inbox;
use desk_links::{Door, Gate};
use desk_traits::{Clock, Disk, Failed};
use office_turns::SharedOffice;
use std::sync::Wait;
use turn_lock::Pass;

/// How a worker ended.
#[derive(Clone, Copy, Debug, PartialEq, Eq)]
pub enum WorkerEnd {
    /// It served its share of links, of which this many ended because memory ran out.
    Done(u64),
    /// An accept failed.
    PortFault,
}

/// Returns 1 for a link that ended because memory ran out, else 0.
fn count_if_out_of_memory(end: LinkEnd) -> u64
    ensures value { result ≡ count_if_out_of_memory end }
    ensures most { result ≤ 1 }
{
    match end {
        LinkEnd::OutOfMemory => 1,
        LinkEnd::Closed | LinkEnd::Cut | LinkEnd::Spent | LinkEnd::LinkFault => 0,
    }
}

impl<R: Wait, D: Disk, C: Clock, G: Gate> Service<'_, R, D, C, G> {
    /// Accepts the next link of a door, serves it, gives it back to the door, and returns how the
    /// link ended. If the accept fails, it returns `Failed`, and no call is answered.
    fn serve_one<Dr: Door>(
        &self,
        pass: &mut Pass<SharedOffice<D>>,
        inbox: &mut Inbox,
        door: &mut Dr,
    ) -> Result<LinkEnd, Failed>
        requires pass { pass.old.lock ≡ self.now.lock.now }
        requires none_out { (Dr.state door.old).given ≡ (Dr.state door.old).returned }
        requires few { (Dr.state door.old).returned < 2 ^ 32 }
        ensures kept { KeepsRights pass.old pass.new }
        ensures served { IfOk result (λ end. ServesOne (AnswersCall (C.gives self.now.clock.now))
            (LosesCall (C.gives self.now.clock.now))
            (Dr.state door.old)
            (Dr.state door.new) pass.old pass.new end) }
        ensures failed { OnErr result (HasNone (Dr.state door.old)
            (Dr.state door.new) pass.old pass.new) }
    {
        let mut link = door.accept()?;
        let end = self.serve_link(pass, inbox, &mut link);
        door.return_link(link);
        Ok(end)
    }

    /// Serves `share` links of an unused door, at most 1,000,000, one after another, and gives each
    /// back to the door. Returns `Done` with the count of links that ended because memory ran out,
    /// or `PortFault` at the first failed accept, after which no link is served.
    pub fn worker<Dr: Door>(
        &self,
        pass: &mut Pass<SharedOffice<D>>,
        inbox: &mut Inbox,
        door: &mut Dr,
        share: u64,
    ) -> WorkerEnd
        requires pass { pass.old.lock ≡ self.now.lock.now }
        requires share { share ≤ 1000000 }
        requires none_given { (Dr.state door.old).given ≡ 0 }
        requires none_returned { (Dr.state door.old).returned ≡ 0 }
        ensures kept { KeepsRights pass.old pass.new }
        ensures none_out { (Dr.state door.new).given ≡ (Dr.state door.new).returned }
        ensures few { (Dr.state door.new).returned ≤ share }
        ensures worked { HasWorked (AnswersCall (C.gives self.now.clock.now))
            (LosesCall (C.gives self.now.clock.now)) share
            (Dr.state door.old)
            (Dr.state door.new) pass.old pass.new result }
    {
        let mut lacks = 0;
        for _served in 0..share {
            match self.serve_one(pass, inbox, door) {
                Ok(end) => lacks += count_if_out_of_memory(end),
                Err(Failed) => return WorkerEnd::PortFault,
            }
        }
        WorkerEnd::Done(lacks)
    }
}
