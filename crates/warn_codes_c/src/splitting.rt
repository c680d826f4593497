//! Splits a text into its products.
ghost use Rattle.std.specs.Prelude.{◌≡◌, ◌++◌, map, IfOk, OnOk};
ghost use Rattle.product_frame.specs.Splitting.{spans_of};
ghost use Rattle.warn_codes_c.specs.Splits.{span_fields, Splits};

use crate::handing::hand_out;
use crate::status::{NO_MEMORY, OK, TOO_SMALL};
use hazard_types::{List, Oom, Span};
use product_decoder::split_products;
use std::alloc::Global;

/// Where a product is in a text, as 0-based bytes.
#[repr(C)]
#[derive(Clone, Copy)]
pub struct SpanFields {
    /// Its first byte.
    pub from: usize,
    /// The byte after its last one.
    pub to: usize,
}

/// Appends the spans, ranges of bytes of a text, to `rows` in the fixed layout for C, in their
/// order.
fn add_spans(rows: &mut List<SpanFields>, spans: &[Span]) -> Result<(), Oom>
    ensures { OnOk result (rows.new ≡ rows.old ++ map span_fields spans.now) }
{
    for span in spans {
        rows.push(SpanFields {
            from: span.from,
            to: span.to,
        })?;
    }
    Ok(())
}

/// Returns the spans of bytes of the products in a text, in the order of the text.
fn spans_in(alloc: Global, text: &[u8]) -> Result<List<SpanFields>, Oom>
    ensures { IfOk result (λ rows. rows ≡ map span_fields (spans_of text.now)) }
{
    let spans = split_products(alloc, text)?;
    let mut rows = List::new(alloc);
    add_spans(&mut rows, spans.as_slice())?;
    Ok(rows)
}

/// Writes where the products of a text are to `spans`, and their count to `needed`: one for each
/// heading line, up to the next one or the end. Returns `OK`; `TOO_SMALL` if `spans` has no room
/// for all, and then only `needed` is written; or `NO_MEMORY`, and then nothing is written.
#[unsafe(no_mangle)]
pub extern "C" fn warn_codes_c_split(
    alloc: Global,
    text: &[u8],
    spans: &mut [SpanFields],
    needed: &mut usize,
) -> u32
    ensures { Splits (map span_fields (spans_of text.now)) result spans.old spans.new needed.old
        needed.new }
{
    let Ok(rows) = spans_in(alloc, text) else {
        return NO_MEMORY;
    };
    *needed = rows.len();
    if hand_out(rows.as_slice(), spans) {
        OK
    } else {
        TOO_SMALL
    }
}
