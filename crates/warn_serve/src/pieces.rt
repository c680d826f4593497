//! The answer with a reply, written in pieces that take no memory, so that no accepted request is
//! left without an answer because memory ran out.
ghost use Rattle.std.specs.Prelude.{◌≡◌, ◌++◌};
ghost use Rattle.desk_links.specs.Links.{WritesLink};
ghost use Rattle.warn_http.specs.Outcomes.{call_answer};
ghost use Rattle.warn_http.specs.declared.outcomes.Outcome.TheVariants.{Replied};
ghost use Rattle.warn_serve.specs.Pieces.{behind_length, reply_head};

use desk_links::{Link, write_link};
use desk_traits::Failed;
use hazard_types::Text;
use itoa::Buffer;

/// Returns the bytes of an answer between the number after `Content-Length: ` and the body: the
/// rest of the head, with `Connection: close` if `last`.
fn behind_length(last: bool) -> &'static [u8]
    ensures { result.now ≡ behind_length last }
{
    if last {
        b"\r\nConnection: close\r\n\r\n"
    } else {
        b"\r\n\r\n"
    }
}

/// Writes `first` and then `second` to the link. On `Err` a prefix of both may be written.
fn write_both<L: Link>(link: &mut L, first: &[u8], second: &[u8]) -> Result<(), Failed>
    ensures { WritesLink (L.state link.old) (L.state link.new) result (first.now ++ second.now) }
{
    write_link(link, first)?;
    write_link(link, second)
}

/// Writes the head of a 200 answer with a JSON body of `count` bytes, with `Connection: close` if
/// `last`. Takes no memory; on `Err` a prefix of it may be written.
fn write_head<L: Link>(link: &mut L, count: usize, last: bool) -> Result<(), Failed>
    ensures { WritesLink (L.state link.old) (L.state link.new) result (reply_head count last) }
{
    let mut digits = Buffer::new();
    write_both(
        link,
        b"HTTP/1.1 200 OK\r\nContent-Type: application/json\r\nContent-Length: ",
        digits.format(count).as_bytes(),
    )?;
    write_link(link, behind_length(last))
}

/// Writes the 200 answer whose body is this reply, with `Connection: close` if `last`. Takes no
/// memory.
///
/// # Errors
///
/// `Failed` if a write failed; a prefix of the answer may be written.
pub(crate) fn write_reply<L: Link>(link: &mut L, reply: &Text, last: bool) -> Result<(), Failed>
    ensures { WritesLink (L.state link.old) (L.state link.new) result
        (call_answer Replied reply.now last) }
{
    write_head(link, reply.len(), last)?;
    write_link(link, reply.as_slice())
}
