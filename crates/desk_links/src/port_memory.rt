//! A port in memory, whose doors lend the links that it was made with.
ghost use Rattle.std.specs.Prelude.{◌≡◌, ◌≤◌, ◌<◌, ◌+◌, ◌-◌, ◌^◌, ◌++◌, ◌∷◌, []};
ghost use Rattle.std.specs.Prelude.{All, length, drop, min, IfOk, OnOk, OnErr};
ghost use Rattle.desk_links.specs.Links.{GivesLink};
ghost use Rattle.desk_links.specs.Listening.{RoseWithFailure};
ghost use Rattle.desk_links.specs.LinkMemory.{IsIdle, IsUntouched, Lends, all_links, dealt};
ghost use Rattle.desk_links.specs.LinkMemory.{door_state, door_with, doors_with, first_door};
ghost use Rattle.desk_links.specs.LinkMemory.{first_list, link_state, port_state, port_with};
ghost use Rattle.desk_links.specs.LinkMemory.{with_back};

use crate::lent::LentLinks;
use crate::link_memory::MemLink;
use crate::port::{Door, Port};
use desk_traits::Failed;
use hazard_types::{List, Oom, Or};
use std::alloc::Global;
use std::collections::{LinkedList, VecDeque};
use std::marker::Model;

/// A door that lends its links in order. It fails at given accepts, and once no link is left.
/// `node` is the list node in which the returned links go to the port, so that this takes no
/// memory.
#[derive(Drop)]
pub struct MemDoor {
    links: LentLinks,
    node: LinkedList<List<MemLink>>,
}

impl Model for MemDoor {
    ghost use Rattle.std.specs.Prelude.{◌≡◌, [], ◌∷◌};
    ghost use Rattle.desk_links.specs.LinkMemory.{DoorInMemory};

    ghost Value = { DoorInMemory };

    ghost view = { λ d. d.links };

    ghost invariant = { λ d. d.node ≡ [] ∷ [] };
}

impl MemDoor {
    /// Returns an unused door that lends `links`, all of them unused, in their order, or an error
    /// if memory runs out. `failing` has the numbers, counted from 1, of the accepts that fail;
    /// each accept fails once no link is left.
    fn new(alloc: Global, links: List<MemLink>, failing: List<u64>) -> Result<Self, Oom>
        requires { All IsUntouched links }
        ensures { IfOk result (λ door. door ≡ door_with links failing) }
    {
        let links = LentLinks::new(alloc, links, &failing)?;
        let mut node = LinkedList::new(alloc);
        node.push_back(List::new(alloc))?;
        Ok(MemDoor { links, node })
    }

    /// Returns a linked list with one element: the list of the links that the door took back, in
    /// the order in which it took them back. The node of that element was made with the door, so
    /// this takes no memory.
    fn into_node(self) -> LinkedList<List<MemLink>>
        ensures { result ≡ self.back ∷ [] }
    {
        let MemDoor { links, mut node } = self;
        if let Some(list) = node.front_mut() {
            *list = List::from_vec(links.into_back());
        }
        node
    }
}

impl Door for MemDoor {
    type Link = MemLink;

    ghost state = { door_state };

    /// Returns the first of the door's links that were not yet lent. Fails, which is counted, if no
    /// link is left or the number of the accept, counted from 1, is one of those that were given to
    /// the door.
    fn accept(&mut self) -> Result<MemLink, Failed>
        requires none_out { self.old.given ≡ length self.old.back }
        requires few { length self.old.back < 2 ^ 32 }
        ensures gives { GivesLink link_state (door_state self.old) (door_state self.new) result }
        ensures lends { Lends self.old self.new result }
    {
        self.links.lend()
    }

    /// Appends `link`, the one that is lent, to the links that the door took back.
    fn return_link(&mut self, link: MemLink)
        requires one_out { self.old.given ≡ length self.old.back + 1 }
        ensures { self.new ≡ with_back self.old link }
    {
        self.links.take_back(link);
    }
}

/// Returns a copy of the list at index `place`, counted from 0, of `failing`, or an empty list if
/// `failing` is shorter; errs if memory runs out. `failing` has a list for each door, in order: the
/// numbers of its accepts that fail.
#[tactic(auto, using(crate::proofs::Dealing::first_told))]
fn failing_accepts_at(
    alloc: Global,
    failing: &List<List<u64>>,
    place: usize,
) -> Result<List<u64>, Oom>
    ensures { IfOk result (λ told. told ≡ first_list (drop place failing.now)) }
{
    match failing.get(place) {
        Some(told) => List::from_slice(alloc, told.as_slice()),
        None => Ok(List::new(alloc)),
    }
}

/// Removes the first of `doors` and returns it, or returns a new door without links if there is
/// none. Errs if memory runs out for the new door.
fn next_door(alloc: Global, doors: &mut VecDeque<MemDoor>) -> Result<MemDoor, Oom>
    ensures first { IfOk result (λ door. door ≡ first_door doors.old.items) }
    ensures others { doors.new.items ≡ drop 1 doors.old.items }
{
    match doors.pop_front() {
        Some(door) => Ok(door),
        None => MemDoor::new(alloc, List::new(alloc), List::new(alloc)),
    }
}

/// A port that lends the doors that it was made with, and keeps the port numbers that were listened
/// at.
#[derive(Drop)]
pub struct MemPort {
    alloc: Global,
    doors: VecDeque<MemDoor>,
    back: LinkedList<List<MemLink>>,
    numbers: Vec<u16>,
    faults: u64,
}

impl Model for MemPort {
    ghost use Rattle.std.specs.Prelude.{◌≤◌, All, length};
    ghost use Rattle.desk_links.specs.LinkMemory.{PortInMemory, IsIdle, all_links};

    ghost Value = { PortInMemory };

    ghost view = { λ p. record {
      doors = p.doors.items;
      back = p.back;
      numbers = p.numbers.items;
      faults = p.faults;
    } };

    ghost invariant = { λ p. (length p.back ≤ length (all_links p.back))
        × All IsIdle p.doors.items };
}

impl MemPort {
    /// Returns a port that lends a door for each list of `links`, in their order, and after them
    /// doors without links; the links must be unused. Accept n of door k, both counted from 1,
    /// fails if n is in list k of `failing`, and so does each accept once the door has no link
    /// left.
    ///
    /// # Errors
    ///
    /// Out of memory.
    pub fn new(
        alloc: Global,
        links: List<List<MemLink>>,
        failing: &List<List<u64>>,
    ) -> Result<Self, Oom>
        requires { All (λ list. All IsUntouched list) links }
        ensures { IfOk result (λ port. port ≡ port_with (doors_with links failing.now)) }
    {
        let mut doors = VecDeque::with_capacity(alloc, links.len())?;
        let mut place = 0;
        for list in links.into_vec() {
            let told = failing_accepts_at(alloc, failing, place)?;
            doors.push_back(MemDoor::new(alloc, list, told)?)?;
            place += 1;
        }
        Ok(MemPort {
            alloc,
            doors,
            back: LinkedList::new(alloc),
            numbers: Vec::new(alloc),
            faults: 0,
        })
    }

    /// Returns the links that came back: a list for each door that came back with a link, in the
    /// order in which the doors came back, each list in the order in which its door took them back.
    pub fn links(&self) -> &LinkedList<List<MemLink>>
        ensures { result.now ≡ self.now.back }
    {
        &self.back
    }

    /// Returns the port numbers that were listened at, in order.
    pub fn numbers(&self) -> &[u16]
        ensures { result.now ≡ self.now.numbers }
    {
        self.numbers.as_slice()
    }
}

impl Port for MemPort {
    type Door = MemDoor;

    ghost state = { port_state };

    /// Appends `port` to the port numbers listened at and returns the port's next doors, as many as
    /// `doors` says, filled up with doors without links once its own are spent. Errs only if memory
    /// runs out; the port number is not kept then, and doors that were already taken for the list
    /// are lost.
    fn listen(&mut self, port: u16, doors: usize) -> Result<List<MemDoor>, Or<Failed>>
        ensures count { IfOk result (λ list. length list ≡ doors) }
        ensures unused { IfOk result (λ list. All IsIdle list) }
        ensures later { self.old.faults ≤ self.new.faults }
        ensures counted { RoseWithFailure self.old.faults self.new.faults result }
        ensures faults { self.new.faults ≡ self.old.faults }
        ensures back { self.new.back ≡ self.old.back }
        ensures numbers { OnOk result (self.new.numbers ≡ self.old.numbers ++ port ∷ []) }
        ensures kept { OnErr result (self.new.numbers ≡ self.old.numbers) }

        // It lends the next of its doors.
        ensures dealt { IfOk result (λ list. list ≡ dealt doors self.old.doors) }
    {
        self.numbers.reserve(1)?;
        let mut list = Vec::with_capacity(self.alloc, doors)?;
        for _ in 0..doors {
            let door = next_door(self.alloc, &mut self.doors)?;
            list.push_reserved(door);
        }
        self.numbers.push_reserved(port);
        Ok(List::from_vec(list))
    }

    /// Adds the count of faults of `door`, which must have no link lent, to that of the port, and
    /// appends its returned links, if there are any, as one list to those of the port. Takes no
    /// memory.
    fn return_door(&mut self, door: MemDoor)
        requires none_out { door.given ≡ length door.back }
        requires few { length (all_links self.old.back) + length door.back < 2 ^ 32 }
        ensures returned { length (all_links self.new.back)
            ≡ length (all_links self.old.back) + length door.back }
        ensures links { all_links self.new.back ≡ all_links self.old.back ++ door.back }
        ensures numbers { self.new.numbers ≡ self.old.numbers }
        ensures faults { self.new.faults ≡ min (self.old.faults + door.faults) (2 ^ 64 - 1) }
    {
        self.faults = self.faults.saturating_add(door.links.faults());
        if door.links.links().is_empty() {
            return;
        }
        let mut node = door.into_node();
        let _ = self.back.append(&mut node);
    }
}
