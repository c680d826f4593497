//! The lawful lines of the product last taken, and what they opened.
ghost use Rattle.std.specs.Prelude.{◌≡◌, ◌++◌, ◌∷◌, [], IfOk, OnOk};
ghost use Rattle.event_life.specs.Lives.{opens};
ghost use Rattle.event_life.specs.Products.{lawful_of};
ghost use Rattle.product_decoder.specs.Openings.{opening_of, openings_in, lawful_taken, openings_taken, last_lawful, last_openings};

use crate::reader::Reader;
use crate::taken::Taken;
use crate::types::Opening;
use event_life::{Breach, leaves_row, opened_period};
use hazard_types::{Action, Line, List, Minute, Oom};
use std::alloc::Global;

/// Whether a line with this action opens an event in its zone.
fn opens(action: &Action) -> bool
    ensures { result ≡ opens action.now }
{
    matches!(action, Action::New | Action::Exa | Action::Exb)
}

/// Returns the event, zone and period that a NEW, EXA or EXB line opens, in a product with the
/// issue minute `t`. The period begins at `t` if the line has a begin of zeros.
fn opening_of(t: Minute, line: &Line) -> Opening
    ensures { result ≡ opening_of t line.now }
{
    Opening {
        event: line.event,
        zone: line.zone,
        period: opened_period(line, t),
        issue: t,
    }
}

/// Appends to `out` what a line opens, or nothing if its action is not NEW, EXA or EXB. `t` is the
/// issue minute of the product, and `Err` is out of memory.
fn add_opening(out: &mut List<Opening>, t: Minute, line: &Line) -> Result<(), Oom>
    ensures { OnOk result (out.new ≡ out.old ++ openings_in t (line.now ∷ [])) }
{
    if opens(&line.action) {
        out.extend(&[opening_of(t, line)])?;
    }
    Ok(())
}

/// Returns what the lawful NEW, EXA and EXB lines of a product with the issue minute `t` open, in
/// the order of `judged`. This has each line with its first breach, or `None` if it is lawful or
/// routine.
fn openings_in(
    alloc: Global,
    t: Minute,
    judged: &[(Line, Option<Breach>)],
) -> Result<List<Opening>, Oom>
    ensures { IfOk result (λ openings. openings ≡ openings_in t (lawful_of judged.now)) }
{
    let mut out = List::new(alloc);
    for found in judged {
        if leaves_row(found) {
            add_opening(&mut out, t, &found.0)?;
        }
    }
    Ok(out)
}

/// Returns the lawful lines of a product that are not routine, in the order of `judged`. This has
/// each line with its first breach, or `None` if it is lawful or routine.
fn lawful_in(alloc: Global, judged: &[(Line, Option<Breach>)]) -> Result<List<Line>, Oom>
    ensures { IfOk result (λ lines. lines ≡ lawful_of judged.now) }
{
    let mut out = List::new(alloc);
    for found in judged {
        if leaves_row(found) {
            out.extend(&[found.0])?;
        }
    }
    Ok(out)
}

/// Returns what the lawful NEW, EXA and EXB lines of the last of these products opened, in the
/// order of the text; empty if there are no products.
fn last_openings(alloc: Global, taken: &[Taken]) -> Result<List<Opening>, Oom>
    ensures { IfOk result (λ openings. openings ≡ openings_taken [] taken.now) }
{
    match taken.last() {
        Some(product) => {
            let judged = product.judged(alloc)?;
            openings_in(alloc, product.issue(), judged.as_slice())
        }
        None => Ok(List::new(alloc)),
    }
}

/// Returns the lawful lines of the last of these products that are not routine, in the order of the
/// text; empty if there are no products.
fn last_lawful(alloc: Global, taken: &[Taken]) -> Result<List<Line>, Oom>
    ensures { IfOk result (λ lines. lines ≡ lawful_taken [] taken.now) }
{
    match taken.last() {
        Some(product) => {
            let judged = product.judged(alloc)?;
            lawful_in(alloc, judged.as_slice())
        }
        None => Ok(List::new(alloc)),
    }
}

impl Reader {
    /// Returns what the lawful NEW, EXA and EXB lines of the product last taken opened, in the
    /// order of the text. Empty before the first product.
    ///
    /// # Errors
    ///
    /// Out of memory.
    pub fn openings(&self, alloc: Global) -> Result<List<Opening>, Oom>
        ensures { IfOk result (λ openings. openings ≡ last_openings self.now.products) }
    {
        last_openings(alloc, self.taken.as_slice())
    }

    /// Returns the lawful lines of the product last taken that are not routine, in the order of the
    /// text. Empty before the first product.
    ///
    /// # Errors
    ///
    /// Out of memory.
    pub fn lawful(&self, alloc: Global) -> Result<List<Line>, Oom>
        ensures { IfOk result (λ lines. lines ≡ last_lawful self.now.products) }
    {
        last_lawful(alloc, self.taken.as_slice())
    }
}
