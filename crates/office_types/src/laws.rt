//! The law of the equality of desks and requests, for the crates above. The function does nothing:
//! its contract is the law.
ghost use Rattle.std.specs.Prelude.{◌≡◌, ℕ, List};
ghost use Rattle.std.specs.Bool.{Decides};

use crate::desk::Desk;
use crate::request::Request;

/// `==` of two desks, or of two requests, is true exactly if the two are the same value.
#[tactic(auto, using(crate::proofs::Equality::desk_decides, crate::proofs::Equality::request_decides))]
pub fn equality_of_requests_is_identity()
    ensures desks { (a b : List ℕ) → Decides (⟦<Desk as PartialEq>⟧.eq a b) (a ≡ b) }
    ensures requests { (a b : Request) → Decides (⟦<Request as PartialEq>⟧.eq a b) (a ≡ b) }
{}
