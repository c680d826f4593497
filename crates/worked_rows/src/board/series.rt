//! The products of a category, and the corrections of a product.
ghost use Rattle.std.specs.Prelude.{◌≡◌, ◌≤◌};
ghost use Rattle.worked_rows.specs.Days.{of_rivers, are_alike, last_of, is_number, corrects, letters_of, original_of};

use hazard_types::Category;
use office_types::Sent;

/// Whether the category is FLW or FLS.
fn of_rivers(category: Category) -> bool
    ensures { result ≡ of_rivers category }
{
    matches!(category, Category::Flw | Category::Fls)
}

/// Whether two categories are the same, where FLW and FLS count as one.
fn are_alike(first: Category, second: Category) -> bool
    ensures { result ≡ are_alike first second }
{
    first == second || (of_rivers(first) && of_rivers(second))
}

/// Returns the number of the last of `products` that is of a category, where FLW and FLS count as
/// one category, or 0 if there is none. `products` are in the order in which they were sent.
pub fn last_of(products: &[Sent], category: Category) -> u32
    ensures { result ≡ last_of products.now category }
{
    let mut last = 0;
    for sent in products {
        if are_alike(sent.category, category) {
            last = sent.number;
        }
    }
    last
}

/// Whether `found` is `Some` of `number`.
fn is_number(number: u32, found: &Option<u32>) -> bool
    ensures { result ≡ is_number number found.now }
{
    match found {
        Some(found) => *found == number,
        None => false,
    }
}

/// Whether a product is a correction of the product with this number.
fn corrects(number: u32, sent: &Sent) -> bool
    ensures { result ≡ corrects number sent.now }
{
    is_number(number, &sent.original)
}

/// Returns how many of `products` are corrections of the product with this number, at most 24.
/// These are the letters that its corrections have used.
pub fn letters_of(products: &[Sent], number: u32) -> u8
    ensures value { result ≡ letters_of products.now number }
    ensures range { result ≤ 24 }
{
    products
        .iter()
        .filter(|sent| corrects(number, sent))
        .count()
        .min(24) as u8
}

/// Returns the number of the product that this one corrects, or its own if it is no correction.
pub fn original_of(sent: &Sent) -> u32
    ensures { result ≡ original_of sent.now }
{
    match sent.original {
        Some(original) => original,
        None => sent.number,
    }
}
