//! A stream of products that comes in pieces.
use hazard_types::{List, Oom, Text};
use product_decoder::Feed;
use std::alloc::Global;

/// Appends a line `feed` with the length in bytes of the text that the feed returned, or `none`,
/// and appends the text to `texts`.
fn keep(out: &mut String, texts: &mut List<Text>, text: Option<Text>) -> Result<(), Oom> {
    match text {
        Some(text) => {
            let length = text.len();
            writeln!(out, "feed {length}")?;
            texts.push(text)
        }
        None => Ok(out.push_str("feed none\n")?),
    }
}

/// Hands a stream to a feed in two halves, and asks the feed for a product once after the first
/// half, twice after the second, and twice after the end. Returns the texts of the products that
/// the feed returned, and appends a line for each call: `feed` with the text's length in bytes, or
/// `feed none`.
///
/// # Errors
///
/// Out of memory.
pub fn write_stream(alloc: Global, out: &mut String, stream: &[u8]) -> Result<List<Text>, Oom> {
    let (head, tail) = stream.split_at(stream.len() / 2);
    let mut texts = List::new(alloc);
    let mut feed = Feed::new(alloc);
    feed.push(alloc, head)?;
    keep(out, &mut texts, feed.take(alloc)?)?;
    feed.push(alloc, tail)?;
    keep(out, &mut texts, feed.take(alloc)?)?;
    keep(out, &mut texts, feed.take(alloc)?)?;
    feed.end();
    keep(out, &mut texts, feed.take(alloc)?)?;
    keep(out, &mut texts, feed.take(alloc)?)?;
    Ok(texts)
}
