//! What a correction asks of earlier products (docs/REQUESTS.md, "What a product says").
ghost use Rattle.std.specs.Prelude.{◌≡◌, ◌≤◌};
ghost use Rattle.office_core.specs.Making.{corrects, counted_as, last_of_category, letters_of, original_of, same_category};

use hazard_types::Category;
use office_types::Sent;

/// The most corrections of a product, CCA to CCX.
const MOST_LETTERS: usize = 24;

/// Returns the category among whose products one of `category` is counted: `Fls` for FLW, which is
/// counted with FLS, and any other category itself.
fn counted_as(category: Category) -> Category
    ensures { result ≡ counted_as category }
{
    match category {
        Category::Flw => Category::Fls,
        other => other,
    }
}

/// Whether the two categories are the same, or one is FLW and the other FLS, whose products are
/// counted together.
fn same_category(a: Category, b: Category) -> bool
    ensures { result ≡ same_category a b }
{
    counted_as(a) == counted_as(b)
}

/// Returns the number of the last of `products`, which are in the order in which they were sent,
/// that is of the category, or 0 if there is none. FLW and FLS count as one category.
pub(crate) fn last_of_category(products: &[Sent], category: Category) -> u32
    ensures { result ≡ last_of_category products.now category }
{
    let mut last = 0;
    for sent in products {
        if same_category(sent.category, category) {
            last = sent.number;
        }
    }
    last
}

/// Returns the number of the product that `sent` corrects, or the number of `sent` itself if it is
/// no correction.
pub(crate) fn original_of(sent: &Sent) -> u32
    ensures { result ≡ original_of sent.now }
{
    match sent.original {
        Some(original) => original,
        None => sent.number,
    }
}

/// Whether `sent` is a correction of the product with number `original`.
fn corrects(original: u32, sent: &Sent) -> bool
    ensures { result ≡ corrects original sent.now }
{
    match sent.original {
        Some(number) => number == original,
        None => false,
    }
}

/// Returns how many of `products` are corrections of the product with number `original`, or 24 if
/// there are more. A product has at most 24 corrections, with the letters `CCA` to `CCX`.
pub(crate) fn letters_of(products: &[Sent], original: u32) -> u8
    ensures letters { result ≡ letters_of products.now original }
    ensures few { result ≤ 24 }
{
    let corrections = products
        .iter()
        .filter(|sent| corrects(original, sent))
        .count();
    corrections.min(MOST_LETTERS) as u8
}
