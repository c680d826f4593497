//! The traits of the serving side: a port lends doors, and a door lends one link at a time.
ghost use Rattle.std.specs.Prelude.{◌≡◌, ◌<◌, ◌+◌, ◌^◌};
ghost use Rattle.desk_links.specs.Links.{DoorState, GivesLink, PortState, with_door, with_link};
ghost use Rattle.desk_links.specs.Listening.{Listens};

use crate::link::Link;
use desk_traits::Failed;
use hazard_types::{List, Or};

/// A listener that lends links, one at a time, and takes each back.
pub trait Door {
    type Link: Link + Send;

    /// The number of links lent and of links returned, the returned links in their final states if
    /// the door exposes them, and the number of failed accepts.
    ghost state: { Self → DoorState };

    /// Accepts the next connection and returns it as a link, of which nothing was read and to which
    /// nothing was written. Every link that was lent before must have been returned.
    ///
    /// # Errors
    ///
    /// `Failed` if no link came; the count of faults has risen.
    fn accept(&mut self) -> Result<Self::Link, Failed>
        requires none_out { (state self.old).given ≡ (state self.old).returned }
        requires few { (state self.old).returned < 2 ^ 32 }
        ensures { GivesLink Self.Link.state (state self.old) (state self.new) result };

    /// Takes back `link`, the one that is lent, and counts it as returned; the door's count of
    /// faults stays as it is. Takes no memory and can't fail.
    fn return_link(&mut self, link: Self::Link)
        requires one_out { (state self.old).given ≡ (state self.old).returned + 1 }
        ensures { state self.new ≡ with_link (state self.old) (Self.Link.state link) };
}

/// A port that lends doors, and takes each back.
pub trait Port {
    type Door: Door + Send + Drop;

    /// The links that came back with their doors and the port numbers that were listened at, both
    /// if the port exposes them, and the number of failures of the port and of its returned doors.
    ghost state: { Self → PortState };

    /// Listens at port number `port` and returns a list of as many doors as `doors` says, which
    /// lend the links that come to it. No door has lent a link or failed yet.
    ///
    /// # Errors
    ///
    /// - `No(Failed)` if the port can't be had; the count of faults has risen.
    /// - `OutOfMemory`; the count of faults is as before.
    fn listen(&mut self, port: u16, doors: usize) -> Result<List<Self::Door>, Or<Failed>>
        ensures { Listens Self.Door.state (state self.old) (state self.new) port doors result };

    /// Takes back `door`, which must have no link lent, and adds its count of faults and its
    /// returned links to those of the port. Takes no memory and can't fail.
    fn return_door(&mut self, door: Self::Door)
        requires none_out { (Self.Door.state door).given ≡ (Self.Door.state door).returned }
        requires few { (state self.old).returned + (Self.Door.state door).returned < 2 ^ 32 }
        ensures { state self.new ≡ with_door (state self.old) (Self.Door.state door) };
}
