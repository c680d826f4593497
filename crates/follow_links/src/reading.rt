//! Reads one answer from a link, and nothing after it.
ghost use Rattle.std.specs.Prelude.{◌≡◌, ◌≤◌, ◌<◌, ◌+◌, ◌++◌, [], length, take, IfOk, OnOk, OnErr};
ghost use Rattle.desk_traits.specs.Faults.{HasCause};
ghost use Rattle.byte_streams.specs.Flows.{Takes};
ghost use Rattle.desk_links.specs.Links.{KeepsOutput};
ghost use Rattle.httparse.specs.Grammar.{HasNoResponse};
ghost use Rattle.follow_links.specs.Answers.{IsCutHead};
ghost use Rattle.follow_links.specs.Readings.{Foresees, IsCause, ReadsAnswer, ReadsBody};
ghost use Rattle.follow_links.specs.Readings.{ReadsHead, ReadsMore, ReadsOn};

use crate::answers::{Head, MOST_BYTES, Shape, head_of};
use desk_links::Peer;
use desk_traits::Failed;
use hazard_types::{Oom, Text};
use httparse::spans::HeaderSpan;

/// The most bytes of a head that are read at once.
const AT_ONCE: usize = 512;

/// Why no whole answer was read.
#[derive(Clone, Copy, Debug, PartialEq, Eq)]
pub enum Miss {
    /// The link failed, or ended before the answer was whole.
    Failed,
    /// The head is bad.
    Bad,
    OutOfMemory,
}

/// Reads at least one and at most `room` bytes of the link into the start of the buffer, and
/// returns how many. Errs if the link failed, or ended without a byte.
fn read_up_to<L: Peer>(link: &mut L, buffer: &mut [u8], room: usize) -> Result<usize, Failed>
    requires some { 1 ≤ room }
    requires within { room ≤ length buffer.old }
    ensures taken { IfOk result (λ count. (1 ≤ count) × (count ≤ room) × (count ≤ length buffer.new)
        × Takes (L.state link.old).input.left (L.state link.new).input.left
        (take count buffer.new)) }
    ensures held { IfOk result (λ count. room ≤ length (L.held link.old)
        → take count buffer.new ≡ take room (L.held link.old)) }
    ensures failed { OnErr result ((L.state link.new).input.left ≡ (L.state link.old).input.left) }
    ensures cause { HasCause
        (L.state link.old).input.faults (L.state link.new).input.faults result }
    ensures steady { OnOk result
        ((L.state link.new).input.faults ≡ (L.state link.old).input.faults) }
    ensures beside { KeepsOutput (L.state link.old) (L.state link.new) }
{
    let count = link.read_some(&mut buffer[..room])?;
    Ok(count)
}

/// Reads at least one and at most `most` bytes of the link, by way of the buffer, and appends them
/// to `bytes`. Errs with `Failed` if the link failed or ended, or with `OutOfMemory`, and then
/// nothing is appended.
fn read_more<L: Peer>(
    link: &mut L,
    buffer: &mut [u8],
    bytes: &mut Text,
    most: usize,
) -> Result<(), Miss>
    requires some { 1 ≤ most }
    requires buffer { 1 ≤ length buffer.old }
    ensures read { ReadsMore (L.state link.old).input.left (L.state link.new).input.left
        bytes.old bytes.new most result }
    ensures held { OnOk result (most ≤ length (L.held link.old) → most ≤ length buffer.old
        → bytes.new ≡ bytes.old ++ take most (L.held link.old)) }
    ensures kept { length buffer.new ≡ length buffer.old }
    ensures cause { IsCause (L.state link.old).input.faults (L.state link.new).input.faults result }
    ensures beside { KeepsOutput (L.state link.old) (L.state link.new) }
{
    let room = most.min(buffer.len());
    let Ok(count) = read_up_to(link, buffer, room) else {
        return Err(Miss::Failed);
    };
    if bytes.extend(&buffer[..count]).is_err() {
        return Err(Miss::OutOfMemory);
    }
    Ok(())
}

/// Returns what the bytes in `bytes` and after them those in `waiting`, at most 8,192 in all, say
/// as the start of an answer: a whole head, a bad one, or one that is not yet whole. Nothing is
/// read: `waiting` are bytes that the link has received and not yet handed out. `fields` is room
/// for `ROOM` (2,731) fields of a head, and is overwritten.
fn look_ahead(bytes: &Text, waiting: &[u8], fields: &mut [HeaderSpan]) -> Result<Head, Oom>
    requires short { length bytes.now + length waiting.now ≤ 8192 }
    requires none { HasNoResponse bytes.now }
    requires room { length fields.old ≡ 2731 }
    ensures foresees { IfOk result (λ head. Foresees bytes.now waiting.now head) }
    ensures kept { length fields.new ≡ 2731 }
{
    let mut both = bytes.clone()?;
    both.extend(waiting)?;
    Ok(head_of(both.as_slice(), fields))
}

/// Reads one byte of the link, appends it to `bytes`, the head so far, and returns what the head
/// says if it is whole with that byte, else `None`. Errs with `Bad` if the byte makes the head bad,
/// with `Failed` if the link failed or ended before the byte, or with `OutOfMemory`. `fields` is
/// room for `ROOM` (2,731) fields of a head, and `buffer` for at least one byte.
fn read_byte<L: Peer>(
    link: &mut L,
    fields: &mut [HeaderSpan],
    buffer: &mut [u8],
    bytes: &mut Text,
) -> Result<Option<Shape>, Miss>
    requires cut { IsCutHead bytes.old }
    requires room { length fields.old ≡ 2731 }
    requires buffer { 1 ≤ length buffer.old }
    ensures read { ReadsOn (L.state link.old).input.left (L.state link.new).input.left
        bytes.old bytes.new result }
    ensures kept { (length fields.new ≡ 2731) × (length buffer.new ≡ length buffer.old) }
    ensures cause { IsCause (L.state link.old).input.faults (L.state link.new).input.faults result }
    ensures beside { KeepsOutput (L.state link.old) (L.state link.new) }
{
    if let Err(miss) = read_more(link, buffer, bytes, 1) {
        return Err(miss);
    }
    match head_of(bytes.as_slice(), fields) {
        Head::More => Ok(None),
        Head::Bad => Err(Miss::Bad),
        Head::Whole(shape) => Ok(Some(shape)),
    }
}

/// Appends to `bytes`, the head so far, what the link has received of the head and nothing after
/// it, or one byte that it reads if nothing was received or `alone` is set, and returns what the
/// head says if it is whole then, else `None`; errs with `Bad` if the head is bad then, with
/// `Failed` if the link failed or ended, or with `OutOfMemory`. If what was received would make the
/// head bad, it sets `alone`, so that from there on each byte is read by itself and none after the
/// one that decides it. `fields` is room for `ROOM` (2,731) fields of a head, and `buffer` for the
/// bytes that are read at once.
///
/// Source: docs/DECISIONS.md, "Following".
fn read_head_part<L: Peer>(
    link: &mut L,
    fields: &mut [HeaderSpan],
    buffer: &mut [u8],
    bytes: &mut Text,
    alone: &mut bool,
) -> Result<Option<Shape>, Miss>
    requires cut { IsCutHead bytes.old }
    requires room { length fields.old ≡ 2731 }
    requires buffer { 1 ≤ length buffer.old }
    ensures read { ReadsOn (L.state link.old).input.left (L.state link.new).input.left
        bytes.old bytes.new result }
    ensures kept { (length fields.new ≡ 2731) × (length buffer.new ≡ length buffer.old) }
    ensures cause { IsCause (L.state link.old).input.faults (L.state link.new).input.faults result }
    ensures beside { KeepsOutput (L.state link.old) (L.state link.new) }
{
    let most = buffer.len().min(MOST_BYTES - bytes.len());
    let waiting = link.waiting();
    let count = waiting.len().min(most);
    if count == 0 || *alone {
        return read_byte(link, fields, buffer, bytes);
    }
    let Ok(ahead) = look_ahead(bytes, &waiting[..count], fields) else {
        return Err(Miss::OutOfMemory);
    };
    match ahead {
        Head::More => match read_more(link, buffer, bytes, count) {
            Ok(()) => Ok(None),
            Err(miss) => Err(miss),
        },
        Head::Whole(shape) => match read_more(link, buffer, bytes, shape.from - bytes.len()) {
            Ok(()) => Ok(Some(shape)),
            Err(miss) => Err(miss),
        },
        Head::Bad => {
            *alone = true;
            read_byte(link, fields, buffer, bytes)
        }
    }
}

/// Reads a head into `bytes`, which are empty before, as it arrives and nothing after it, and
/// returns what it says. Errs with `Bad` if it is bad or not whole within 8,192 bytes, with
/// `Failed` if the link failed or ended, or with `OutOfMemory`. `fields` is room for `ROOM` (2,731)
/// fields of a head.
fn read_head<L: Peer>(
    link: &mut L,
    fields: &mut [HeaderSpan],
    bytes: &mut Text,
) -> Result<Shape, Miss>
    requires none { bytes.old ≡ [] }
    requires room { length fields.old ≡ 2731 }
    ensures read { ReadsHead (L.state link.old).input.left (L.state link.new).input.left bytes.new
        result }
    ensures kept { length fields.new ≡ 2731 }
    ensures cause { IsCause (L.state link.old).input.faults (L.state link.new).input.faults result }
    ensures beside { KeepsOutput (L.state link.old) (L.state link.new) }
{
    let mut buffer = [0u8; AT_ONCE];
    let mut alone = false;
    while bytes.len() < MOST_BYTES {
        match read_head_part(link, fields, &mut buffer, bytes, &mut alone) {
            Ok(None) => {}
            Ok(Some(shape)) => return Ok(shape),
            Err(miss) => return Err(miss),
        }
    }
    Err(Miss::Bad)
}

/// Appends bytes of the link to `bytes`, which have the head of an answer, until there are `wanted`
/// bytes in all. Errs with `Failed` if the link failed or ended before, or with `OutOfMemory`.
fn read_body<L: Peer>(link: &mut L, bytes: &mut Text, wanted: usize) -> Result<(), Miss>
    requires { length bytes.old ≤ wanted }
    ensures read { ReadsBody (L.state link.old).input.left (L.state link.new).input.left
        bytes.old bytes.new wanted result }
    ensures cause { IsCause (L.state link.old).input.faults (L.state link.new).input.faults result }
    ensures beside { KeepsOutput (L.state link.old) (L.state link.new) }
{
    let mut buffer = [0u8; 4096];
    while bytes.len() < wanted {
        let most = wanted - bytes.len();
        if let Err(miss) = read_more(link, &mut buffer, bytes, most) {
            return Err(miss);
        }
    }
    Ok(())
}

/// Reads one answer, head and body, into `bytes`, which are empty before, and returns what its head
/// says. `fields` is room for `ROOM` (2,731) fields of a head.
///
/// # Errors
///
/// `Failed` if the link failed or ended before the answer was whole, `Bad` if the head is bad, or
/// out of memory.
pub fn read_answer<L: Peer>(
    link: &mut L,
    fields: &mut [HeaderSpan],
    bytes: &mut Text,
) -> Result<Shape, Miss>
    requires none { bytes.old ≡ [] }
    requires room { length fields.old ≡ 2731 }
    ensures read { ReadsAnswer (L.state link.old).input.left (L.state link.new).input.left
        bytes.new result }
    ensures kept { length fields.new ≡ 2731 }
    ensures cause { IsCause (L.state link.old).input.faults (L.state link.new).input.faults result }
    ensures beside { KeepsOutput (L.state link.old) (L.state link.new) }
{
    let shape = read_head(link, fields, bytes)?;
    match read_body(link, bytes, shape.from + shape.body as usize) {
        Ok(()) => Ok(shape),
        Err(miss) => Err(miss),
    }
}
