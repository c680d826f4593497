//! Offices in arguments.
ghost use Rattle.std.specs.Prelude.{◌≡◌, ◌||◌, IfSome, IsTrue, Some, None, if◌then◌else◌};
ghost use Rattle.std.specs.List.{list_all};
ghost use Rattle.hazard_types.specs.Calendar.{is_digit};
ghost use Rattle.hazard_types.specs.Characters.{is_office};
ghost use Rattle.hazard_types.specs.Places.{is_capital};

/// Whether each byte is A-Z or 0-9, the characters of an office such as `KLWX`; true of no bytes at
/// all.
fn are_office_letters(word: &[u8]) -> bool
    ensures { result ≡ list_all (λ c. is_capital c || is_digit c) word.now }
{
    word.iter()
        .all(|c| c.is_ascii_uppercase() || c.is_ascii_digit())
}

/// Returns the office that a word names, four characters of A-Z and 0-9 such as `KLWX`. It is
/// `None` exactly if `word` is not of this form.
#[tactic(auto, using(crate::proofs::Shapes::four_is))]
pub fn office_of(word: &[u8]) -> Option<[u8; 4]>
    ensures value { result ≡ (if is_office word.now then Some word.now else None) }
    ensures office { IfSome result (λ office. IsTrue (is_office office)) }
{
    let [first, second, third, fourth] = word else {
        return None;
    };
    if are_office_letters(word) {
        Some([*first, *second, *third, *fourth])
    } else {
        None
    }
}
