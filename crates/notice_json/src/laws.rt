//! A law of refusals. The function does nothing; its contract is the law.
ghost use Rattle.std.specs.Prelude.{◌≢◌, ℕ, All};
ghost use Rattle.notice_json.specs.Refusals.{refusal_text};

use crate::refusal::NoticeRefusal;

/// Law: the text of any refusal has no LF, so it is one line.
#[tactic(auto, using(crate::proofs::Floats::refusal_line))]
pub fn refusal_texts_are_lines()
    ensures { (r : NoticeRefusal) → All (λ (b : ℕ). b ≢ 10) (refusal_text r) }
{}
