//! Writes the bodies of entries.
ghost use Rattle.std.specs.Prelude.{◌≡◌, IfOk};
ghost use Rattle.office_journal.specs.Bodies.{entry_body};

use hazard_types::{Oom, Text, stamp};
use office_core::Prepared;
use office_types::{Desk, Edition, Request};
use request_json::text_of_request;
use std::alloc::Global;

/// Returns the body of the entry of the prepared request `p`: the stamp of its minute, a blank and
/// the canonical text of the request; in edition Two also a line feed and the text of its product,
/// if it makes one. `desk`, `seq` (the request's number), the request `r` and `edition` are those
/// that `p` was prepared with. Errs if memory runs out.
///
/// Source: docs/JOURNAL.md, "The file, byte by byte".
pub(crate) fn entry_body(
    alloc: Global,
    desk: &Desk,
    seq: u32,
    r: &Request,
    edition: Edition,
    p: &Prepared,
) -> Result<Text, Oom>
    requires desk { p.now.entry.desk ≡ desk.now }
    requires seq { p.now.entry.seq ≡ seq }
    requires request { p.now.entry.request ≡ r.now }
    requires edition { p.now.entry.edition ≡ edition }
    ensures { IfOk result
        (λ body. body ≡ entry_body (record { entry = p.now.entry; made = p.now.made })) }
{
    let mut body = Text::from_slice(alloc, &stamp(p.minute()))?;
    body.push(b' ')?;
    let asked = text_of_request(alloc, desk, seq, r)?;
    body.extend(asked.as_slice())?;
    if edition == Edition::Two {
        if let Some(text) = p.text() {
            body.push(b'\n')?;
            body.extend(text.as_slice())?;
        }
    }
    Ok(body)
}
