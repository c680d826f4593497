//! Splits texts into products.
ghost use Rattle.std.specs.Prelude.{◌≡◌, ◌≤◌, ℕ, List as Seq, length, IfOk};
ghost use Rattle.std.specs.List.{All, concat};
ghost use Rattle.product_frame.specs.Text.{starts};
ghost use Rattle.product_frame.specs.Splitting.{headings_in, first_or, spans_to, spans_of, laid, from_first, IsOneProduct, spans_from};

use crate::read::is_heading;
use crate::text::starts;
use hazard_types::{List, Oom, Span};
use std::alloc::Global;

/// Returns those of `places`, in their order, at which a heading line starts. `places` are indices
/// of bytes at which lines start.
fn headings_in(alloc: Global, bytes: &[u8], places: &[usize]) -> Result<List<usize>, Oom>
    requires { All (λ start. start ≤ length bytes.now) places.now }
    ensures { IfOk result (λ list. list ≡ headings_in bytes.now places.now) }
{
    let mut list = List::new(alloc);
    for start in places {
        if is_heading(&bytes[*start..]) {
            list.push(*start)?;
        }
    }
    Ok(list)
}

/// Returns the first of `places`, or `end` if `places` is empty.
fn first_or(end: usize, places: &[usize]) -> usize
    ensures { result ≡ first_or end places.now }
{
    match places {
        [first, ..] => *first,
        [] => end,
    }
}

/// Returns a span of bytes from each of `places` up to the next of them, and from the last up to
/// `end`. `places` are indices of bytes, in ascending order.
fn spans_to(alloc: Global, end: usize, places: &[usize]) -> Result<List<Span>, Oom>
    ensures { IfOk result (λ list. list ≡ spans_to end places.now) }
{
    let mut list = List::new(alloc);
    for (k, start) in places.iter().enumerate() {
        let to = first_or(end, &places[k + 1..]);
        list.push(Span { from: *start, to })?;
    }
    Ok(list)
}

/// Returns the products of a text as spans of bytes, in order: one from each heading line up to the
/// next heading line or the end. Bytes before the first heading line belong to no product.
///
/// # Errors
///
/// Out of memory.
///
/// Source: NWS Instruction 10-1701, WMO heading.
#[tactic(auto, unfolding(crate::specs::Splitting::spans_of), using(crate::proofs::Splitting::laid_end_to_end))]
pub fn split_products(alloc: Global, bytes: &[u8]) -> Result<List<Span>, Oom>
    ensures value { IfOk result (λ spans. spans ≡ spans_of bytes.now) }
    // Laid end to end they are the text from the first heading line on.
    ensures whole { IfOk result (λ spans.
        laid bytes.now spans ≡ from_first bytes.now (headings_in bytes.now (starts bytes.now))) }
{
    let places = starts(alloc, bytes)?;
    let headings = headings_in(alloc, bytes, places.as_slice())?;
    spans_to(alloc, bytes.len(), headings.as_slice())
}

/// Law: if texts are laid end to end, `split_products` splits the whole exactly where one text ends
/// and the next starts. This holds if each text has one heading line, which is its first line, and
/// ends with LF.
#[tactic(auto, using(crate::proofs::EndToEnd::split_apart))]
pub fn texts_are_split_apart()
    ensures { (texts : Seq (Seq ℕ)) →
        All IsOneProduct texts → spans_of (concat texts) ≡ spans_from 0 texts }
{}
