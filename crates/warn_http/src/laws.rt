//! Laws of calls and routes. They have no code.
ghost use Rattle.std.specs.Prelude.{◌≡◌, ◌++◌, ℕ, false, Some, List, [], ◌∷◌, drop, length, ◌<◌};
ghost use Rattle.office_types.specs.declared.refusal.Refusal.{Refusal};
ghost use Rattle.warn_http.specs.Routes.{aim_of, IsPath};
ghost use Rattle.warn_http.specs.declared.routes.Aim.{Aim};
ghost use Rattle.httparse.specs.Grammar.{HasNoRequest};
ghost use Rattle.warn_http.specs.Heads.{has_line_feed};
ghost use Rattle.warn_http.specs.Calls.{Called, HasNoWholeCall, IsCall, IsRefused, IsUnfinished, IsCut, Stop, AreCalls, IsFinal, AreAlike};

/// If bytes start with a call, or with a call that is refused, they do so whatever bytes follow. So
/// if the calls of a stream end by a refusal, by a call after which the link closes, or by the
/// greatest number of calls, and not because the bytes end, every longer stream has the same calls
/// and the same end.
#[tactic(auto, using(crate::proofs::Streams::cut_stays, crate::proofs::Streams::calls_stay))]
pub fn calls_stay()
    ensures call { (bytes more : List ℕ) (c : Called) → IsCall bytes c → IsCall (bytes ++ more) c }
    ensures refused { (bytes more : List ℕ) (f : Refusal) →
        IsRefused bytes f → IsRefused (bytes ++ more) f }
    ensures cut { (bytes more : List ℕ) (calls : List Called) (rest : List ℕ) →
        IsCut bytes calls rest → IsCut (bytes ++ more) calls (rest ++ more) }
    ensures calls { (bytes more : List ℕ) (calls : List Called) (stop : Stop) →
        IsFinal stop → AreCalls bytes calls stop → AreCalls (bytes ++ more) calls stop }
{}

/// The bytes of a stream determine the list of its calls, and how this list ends. Two ends can
/// differ only where a head is both bad and too long, or where the bytes end within a target that
/// no bytes can complete.
pub fn calls_are_one()
    ensures call { (bytes : List ℕ) (c d : Called) → IsCall bytes c → IsCall bytes d → c ≡ d }
    ensures calls { (bytes : List ℕ) (calls others : List Called) (stop other : Stop) →
        AreCalls bytes calls stop → AreCalls bytes others other →
        (calls ≡ others) × AreAlike stop other }
{}

/// If bytes are cut into calls and a rest, and this rest starts with a call after which the link
/// stays open, the bytes are also cut into the calls with this one added and the rest behind it.
pub fn calls_go_on()
    ensures { (bytes : List ℕ) (calls : List Called) (rest : List ℕ) (c : Called) →
        IsCut bytes calls rest → IsCall rest c → c.last ≡ false →
        IsCut bytes (calls ++ c ∷ []) (drop c.used rest) }
{}

/// A path asks for `aim` by the table of routes (`Routes::aim_of`) exactly if it is the path that
/// docs/HTTP.md gives for `aim`. That is `/requests` or `/board`, or `/products/`,
/// `/products/after/`, `/drafts/` or `/preview/` with decimal digits after it that write the number
/// of `aim`, which is below 2^32.
pub fn routes_are_paths()
    ensures path { (path : List ℕ) (aim : Aim) → aim_of path ≡ Some aim → IsPath path aim }
    ensures route { (path : List ℕ) (aim : Aim) → IsPath path aim → aim_of path ≡ Some aim }
{}

/// An unfinished call has fewer than 73,728 bytes: a head has at most 8,192 and a body at most
/// 65,536.
pub fn unfinished_calls_are_short()
    ensures { (bytes : List ℕ) → IsUnfinished bytes → length bytes < 73728 }
{}

/// A head ends with a line feed, so bytes that start with no whole head start with none as long as
/// no line feed follows. Without bytes there is no head.
pub fn heads_end_with_a_line_feed()
    ensures empty { HasNoRequest [] }
    ensures more { (bytes more : List ℕ) →
        HasNoRequest bytes → has_line_feed more ≡ false → HasNoRequest (bytes ++ more) }
{}

/// Bytes that are an unfinished call, or that start with no whole head, do not start with a whole
/// call.
pub fn unfinished_calls_are_not_whole()
    ensures unfinished { (bytes : List ℕ) → IsUnfinished bytes → HasNoWholeCall bytes }
    ensures headless { (bytes : List ℕ) → HasNoRequest bytes → HasNoWholeCall bytes }
{}
