//! Cuts a stream that comes in pieces into its products.
ghost use Rattle.std.specs.Prelude.{◌≡◌, ◌<◌, ◌++◌, ℕ, false, true, Ok, [], length, IfOk, OnOk, OnErr, List as Seq};
ghost use Rattle.std.specs.List.{concat};
ghost use Rattle.product_decoder.specs.Feeding.{texts_of, products_in, Keeps, Takes};

use crate::held::Held;
use hazard_types::{List, Oom, Text};
use std::alloc::Global;
use std::marker::Model;

/// Takes the bytes of a stream piece by piece, and returns its products one after another. It keeps
/// the bytes of the products that were not returned.
#[derive(Drop)]
pub struct Feed {
    held: Held,
    ended: bool,
}

impl Model for Feed {
    ghost use Rattle.std.specs.Prelude.{drop};
    ghost use Rattle.product_decoder.specs.Feeding.{Fed, IsHeld};

    ghost Value = { Fed };

    ghost view = { λ f. record { rest = drop f.held.from f.held.bytes.items; ended = f.ended } };

    ghost invariant = { λ f.
        IsHeld f.held.bytes.items f.held.from f.held.seen f.held.looked f.held.headed };
}

impl Feed {
    /// Returns a feed of a stream of which no byte has come.
    pub fn new(alloc: Global) -> Self
        ensures rest { result.rest ≡ [] }
        ensures going { result.ended ≡ false }
    {
        Feed {
            held: Held::new(alloc),
            ended: false,
        }
    }

    /// Adds a piece after the pieces before. `end` must not have been called.
    ///
    /// # Errors
    ///
    /// Out of memory; nothing changes.
    pub fn push(&mut self, alloc: Global, piece: &[u8]) -> Result<(), Oom>
        requires { self.old.ended ≡ false }
        ensures ok { OnOk result (self.new.rest ≡ self.old.rest ++ piece.now) }
        ensures going { self.new.ended ≡ false }
        ensures err { OnErr result (self.new.rest ≡ self.old.rest) }
    {
        self.held.push(alloc, piece)
    }

    /// Marks the end of the stream. The last line then counts, whether it has its line end or not.
    pub fn end(&mut self)
        ensures rest { self.new.rest ≡ self.old.rest }
        ensures ended { self.new.ended ≡ true }
    {
        self.ended = true;
    }

    /// Returns the next product, from its heading line up to the next one, and no longer keeps it.
    /// What comes before the first heading line belongs to no product, and is passed over. Before
    /// the end is marked it is `None` until the heading line after the product is whole; after that
    /// it is `None` once no product is left.
    ///
    /// # Errors
    ///
    /// Out of memory; no product is lost.
    ///
    /// Source: docs/DECISIONS.md, "The archive's report".
    pub fn take(&mut self, alloc: Global) -> Result<Option<Text>, Oom>
        ensures ended { self.new.ended ≡ self.old.ended }
        ensures taken { IfOk result (λ text. Takes self.old text self.new) }
        ensures err { OnErr result (Keeps self.old.rest self.new.rest) }
    {
        if self.ended {
            self.held.take_last(alloc)
        } else {
            self.held.take_whole(alloc)
        }
    }

    /// Returns how many bytes are kept: those that were pushed and neither returned in a product
    /// nor passed over because no heading line came before them.
    pub fn held(&self) -> usize
        ensures { result ≡ length self.now.rest }
    {
        self.held.len()
    }
}

/// Appends to `out` the next product that `feed` can return, and returns whether there was one.
/// `Err` is out of memory; no product is lost.
fn take_one(alloc: Global, feed: &mut Feed, out: &mut List<Text>) -> Result<bool, Oom>
    ensures ended { feed.new.ended ≡ feed.old.ended }
    ensures going { OnOk result (feed.old.ended ≡ false
        → (more : Seq ℕ) → out.old ++ products_in (feed.old.rest ++ more)
        ≡ out.new ++ products_in (feed.new.rest ++ more)) }
    ensures last { OnOk result (feed.old.ended ≡ true
        → out.old ++ products_in feed.old.rest ≡ out.new ++ products_in feed.new.rest) }
    ensures less { result ≡ Ok true → length feed.new.rest < length feed.old.rest }
    ensures none { result ≡ Ok false → feed.old.ended ≡ true → products_in feed.new.rest ≡ [] }
{
    match feed.take(alloc)? {
        Some(text) => {
            out.push(text)?;
            Ok(true)
        }
        None => Ok(false),
    }
}

/// Appends to `out`, in the order of the stream, each product that is followed by a whole heading
/// line, or, if the end of `feed` is marked, all that are left. `Err` is out of memory.
fn take_each(alloc: Global, feed: &mut Feed, out: &mut List<Text>) -> Result<(), Oom>
    ensures ended { feed.new.ended ≡ feed.old.ended }
    ensures going { OnOk result (feed.old.ended ≡ false
        → (more : Seq ℕ) → out.old ++ products_in (feed.old.rest ++ more)
        ≡ out.new ++ products_in (feed.new.rest ++ more)) }
    ensures last { OnOk result
        (feed.old.ended ≡ true → out.old ++ products_in feed.old.rest ≡ out.new) }
{
    let mut more = true;
    while more {
        more = take_one(alloc, feed, out)?;
    }
    Ok(())
}

/// Returns the products of the stream that the pieces make one after another, in its order,
/// wherever it is cut into pieces.
///
/// # Errors
///
/// Out of memory.
pub fn products_of(alloc: Global, pieces: &[Text]) -> Result<List<Text>, Oom>
    ensures { IfOk result (λ texts. texts ≡ texts_of (concat pieces.now)) }
{
    let mut feed = Feed::new(alloc);
    let mut out = List::new(alloc);
    for piece in pieces {
        feed.push(alloc, piece.as_slice())?;
        take_each(alloc, &mut feed, &mut out)?;
    }
    feed.end();
    take_each(alloc, &mut feed, &mut out)?;
    Ok(out)
}

/// For any bytes two ways of cutting them into products give the same ones. In one they are split
/// at the spans that `product_frame` finds; in the other they are gone through line by line, and
/// each heading line starts a product.
#[tactic(auto, using(crate::proofs::Dividing::products_told))]
pub fn lines_tell_the_products()
    ensures { (bytes : Seq ℕ) → texts_of bytes ≡ products_in bytes }
{}
