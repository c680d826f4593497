//! Laws of canonical texts, for the crates above. The functions do nothing: their contracts are the
//! laws.
ghost use Rattle.std.specs.Prelude.{◌≡◌, ◌≢◌, ℕ, Ok, All};
ghost use Rattle.request_json.specs.Canonical.{asked_text};
ghost use Rattle.request_json.specs.Form.{asked_of};
ghost use Rattle.request_json.specs.Formed.{HasForm};

use crate::asked::Asked;

/// Law: if a request has its values in their ranges and UTF-8 texts, reading its canonical text
/// gives the same request, with the same desk and number.
#[tactic(auto, using(crate::proofs::RequestsBack::text_reads_back))]
pub fn canonical_texts_read_back()
    ensures { (a : Asked) → HasForm a → asked_of (asked_text a) ≡ Ok a }
{}

/// Law: the canonical text of any request has no LF, so it is one line.
#[tactic(auto, using(crate::proofs::CanonicalLines::asked_line))]
pub fn canonical_texts_are_lines()
    ensures { (a : Asked) → All (λ (b : ℕ). b ≢ 10) (asked_text a) }
{}
