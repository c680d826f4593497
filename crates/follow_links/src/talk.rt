//! Questions and answers on one link.
ghost use Rattle.std.specs.Prelude.{◌≡◌, ◌↔◌, length, IsTrue};
ghost use Rattle.follow_links.specs.Answers.{no_product};
ghost use Rattle.follow_links.specs.Rounding.{IsAsk, IsTaken, Talks, RoseIfFailed, end_of};
ghost use Rattle.follow_links.specs.Readings.{IsShaped};

use crate::answers::Shape;
use crate::asks::ask_text;
use crate::reading::{Miss, read_answer};
use desk_links::{Peer, write_link};
use follow_core::Follower;
use hazard_types::{Or, Text};
use httparse::spans::HeaderSpan;
use std::alloc::Global;

/// How a link is left.
#[derive(Clone, Copy, Debug, PartialEq, Eq)]
pub enum LinkEnd {
    /// No round is left, and the link is open.
    Spent,
    /// The last answer closed it.
    Closed,
    /// It failed, or ended before an answer was whole.
    Failed,
    /// The office has no further product.
    Ended,
    /// An answer is bad.
    Bad,
    OutOfMemory,
}

/// Returns how a link is left if no whole answer was read from it for the reason `miss`.
fn end_of(miss: Miss) -> LinkEnd
    ensures { result ≡ end_of miss }
{
    match miss {
        Miss::Failed => LinkEnd::Failed,
        Miss::Bad => LinkEnd::Bad,
        Miss::OutOfMemory => LinkEnd::OutOfMemory,
    }
}

/// The body of the answer that there is no further product.
///
/// Source: docs/FOLLOWING.md, "A round".
const NO_PRODUCT: &[u8] = b"{\"no\":\"E14\",\"rule\":\"NoProduct\"}";

/// The most products of an office.
const MOST: u32 = 8192;

/// Whether `body`, that of a 404 answer, is exactly `{"no":"E14","rule":"NoProduct"}`, which says
/// that there is no further product.
fn is_end_answer(body: &[u8]) -> bool
    ensures { IsTrue result ↔ (body.now ≡ no_product) }
{
    body == NO_PRODUCT
}

/// Adds the product in a whole answer to the follower, and returns whether the link closes after
/// the answer. Errs with how the link is left: `Ended` for a 404 that says that there is no further
/// product, `Bad` for another 404, for a body that is no product and for a follower that has 8,192
/// products, or `OutOfMemory`. `bytes` are the whole answer, and `shape` is what its head says.
fn take_answer(
    alloc: Global,
    follower: &mut Follower,
    shape: &Shape,
    bytes: &[u8],
) -> Result<bool, LinkEnd>
    requires { IsShaped bytes.now shape.now }
    ensures { IsTaken follower.old follower.new bytes.now result }
{
    let body = &bytes[shape.from..];
    if shape.status == 404 {
        if is_end_answer(body) {
            return Err(LinkEnd::Ended);
        }
        return Err(LinkEnd::Bad);
    }
    let place = follower.place();
    if place >= MOST {
        return Err(LinkEnd::Bad);
    }
    match follower.hear(alloc, place, body) {
        Ok(_heard) => Ok(shape.closes),
        Err(Or::No(_)) => Err(LinkEnd::Bad),
        Err(Or::OutOfMemory) => Err(LinkEnd::OutOfMemory),
    }
}

/// Asks on the link for the product after those that the follower has, adds it to the follower, and
/// returns whether the link closes after the answer. Errs with how the link is left if no product
/// was added. `fields` is room for `ROOM` (2,731) fields of a head.
fn ask_once<L: Peer>(
    alloc: Global,
    link: &mut L,
    follower: &mut Follower,
    fields: &mut [HeaderSpan],
) -> Result<bool, LinkEnd>
    requires room { length fields.old ≡ 2731 }
    ensures asked { IsAsk (L.state link.old) (L.state link.new) follower.old follower.new result }
    ensures kept { length fields.new ≡ 2731 }
    ensures cause { RoseIfFailed (L.state link.old) (L.state link.new) result }
    ensures came { (L.state link.new).came ≡ (L.state link.old).came }
{
    let Ok(ask) = ask_text(alloc, follower.place()) else {
        return Err(LinkEnd::OutOfMemory);
    };
    if write_link(link, ask.as_slice()).is_err() {
        return Err(LinkEnd::Failed);
    }
    let mut bytes = Text::new(alloc);
    match read_answer(link, fields, &mut bytes) {
        Ok(shape) => take_answer(alloc, follower, &shape, bytes.as_slice()),
        Err(miss) => Err(end_of(miss)),
    }
}

/// Asks on a link for one product after another, adds them to the follower, and returns how the
/// link is left: it stops when no round is left (`Spent`), when an answer closed the link
/// (`Closed`), or when an ask gave no product. `left` is the number of rounds that are left, of
/// which each question takes one. `fields` is room for `ROOM` (2,731) fields of a head.
pub fn talk<L: Peer>(
    alloc: Global,
    link: &mut L,
    follower: &mut Follower,
    fields: &mut [HeaderSpan],
    left: &mut u32,
) -> LinkEnd
    requires room { length fields.old ≡ 2731 }
    ensures talks { Talks (L.state link.old) (L.state link.new) follower.old follower.new
        left.old left.new result }
    ensures kept { length fields.new ≡ 2731 }
{
    while *left > 0 {
        *left -= 1;
        match ask_once(alloc, link, follower, fields) {
            Ok(closes) => {
                if closes {
                    return LinkEnd::Closed;
                }
            }
            Err(end) => return end,
        }
    }
    LinkEnd::Spent
}
