//! The next call of a link.
ghost use Rattle.std.specs.Prelude.{◌≡◌, ◌≤◌, ◌<◌, length, take, IfSome, IfNone, ⊤};
ghost use Rattle.warn_http.specs.Calls.{HasNoWholeCall, IsUnfinished};
ghost use Rattle.call_inbox.specs.Next.{IsSteady, Tells, TellsOf};
ghost use Rattle.call_inbox.specs.Reading.{HasRead};
ghost use Rattle.call_inbox.specs.Watching.{Waits};

use crate::inbox::Inbox;
use crate::watch::Watch;
use desk_links::Link;
use desk_traits::Failed;
use office_types::Refusal;
use std::alloc::Global;
use warn_http::{
    Call, HttpRead, Routes, heads_end_with_a_line_feed, read_call, unfinished_calls_are_not_whole,
    unfinished_calls_are_short,
};

/// What comes next on a link.
#[derive(Clone, Debug, Drop, PartialEq, Eq)]
pub enum NextCall {
    /// A whole call: what it asks for, the bytes of its head and body in all, and whether the link
    /// closes after it. Its bytes are at the start of the inbox until they are skipped.
    Call { call: Call, used: usize, last: bool },
    /// The call is refused by one of F1 to F6.
    Refused(Refusal),
    /// The input ended between calls: the inbox is empty.
    Closed,
    /// The input ended within a call.
    Cut,
    /// A read failed.
    LinkFault,
    OutOfMemory,
}

/// Returns the call at the start of `bytes`, its refusal, or `OutOfMemory` if memory ran out for
/// reading it. It is `None` if the call is unfinished and not yet refused.
fn next_in(alloc: Global, routes: &Routes, bytes: &[u8]) -> Option<NextCall>
    ensures some { IfSome result (Tells bytes.now ⊥ ⊥) }
    ensures none { IfNone result (IsUnfinished bytes.now) }
{
    match read_call(alloc, routes, bytes) {
        HttpRead::Call { call, used, last } => Some(NextCall::Call { call, used, last }),
        HttpRead::More => None,
        HttpRead::Refused(refusal) => Some(NextCall::Refused(refusal)),
        HttpRead::OutOfMemory => Some(NextCall::OutOfMemory),
    }
}

/// Returns what comes next on a link whose input ends after `bytes`: the call at their start, its
/// refusal, or `OutOfMemory` if memory ran out for reading it. If there are no bytes it is
/// `Closed`, and `Cut` if they end within a call that is not yet refused.
fn next_at_end(alloc: Global, routes: &Routes, bytes: &[u8]) -> NextCall
    ensures { Tells bytes.now ⊤ ⊥ result }
{
    match next_in(alloc, routes, bytes) {
        Some(next) => next,
        None if bytes.is_empty() => NextCall::Closed,
        None => NextCall::Cut,
    }
}

/// Returns the call at the start of `bytes`, its refusal, or `OutOfMemory` if memory ran out for
/// reading it. It is `None` if more bytes must be read first: the bytes are not to be judged yet by
/// `watch`, or the call is unfinished. `watch` must have seen a prefix of `bytes`; for `None` it
/// has then seen all of them.
fn next_when_due(
    alloc: Global,
    routes: &Routes,
    bytes: &[u8],
    watch: &mut Watch,
) -> Option<NextCall>
    requires seen { watch.old.seen ≤ length bytes.now }
    requires waits { Waits watch.old.from watch.old.by_line (take watch.old.seen bytes.now) }
    ensures some { IfSome result (Tells bytes.now ⊥ ⊥) }
    ensures none { IfNone result (HasNoWholeCall bytes.now) }
    ensures room { IfNone result (length bytes.now < 73728) }
    ensures seen { IfNone result (watch.new.seen ≡ length bytes.now) }
    ensures waits { IfNone result (Waits watch.new.from watch.new.by_line bytes.now) }
{
    unfinished_calls_are_short();
    unfinished_calls_are_not_whole();
    heads_end_with_a_line_feed();
    if !watch.is_due(bytes) {
        watch.seen = bytes.len();
        return None;
    }
    match next_in(alloc, routes, bytes) {
        Some(next) => Some(next),
        None => {
            *watch = Watch::after_check(bytes);
            None
        }
    }
}

/// Returns the next whole call on `link`, whose bytes are then at the start of `inbox`, or the
/// refusal of it; `Closed` if the input ended between calls, `Cut` if it ended within one,
/// `LinkFault` if a read failed, or `OutOfMemory`. It reads until the bytes in `inbox` that were
/// not skipped start with a call that is whole or refused, so not at all if they do already. It
/// writes nothing.
pub fn next_call<L: Link>(
    alloc: Global,
    routes: &Routes,
    inbox: &mut Inbox,
    link: &mut L,
) -> NextCall
    ensures read { HasRead inbox.old inbox.new (L.state link.old) (L.state link.new) }
    ensures next { TellsOf (L.state link.old) (L.state link.new) inbox.new result }
    ensures later { (L.state link.old).input.faults ≤ (L.state link.new).input.faults }
    ensures steady { IsSteady (L.state link.old).input.faults (L.state link.new).input.faults
        result }
{
    let mut watch = Watch::new();
    loop {
        let next = next_when_due(alloc, routes, inbox.as_slice(), &mut watch);
        if let Some(next) = next {
            return next;
        }
        match inbox.fill(link) {
            Ok(0) => return next_at_end(alloc, routes, inbox.as_slice()),
            Ok(_) => {}
            Err(Failed) => return NextCall::LinkFault,
        }
    }
}
