//! Laws of the definitions. They have no code.
ghost use Rattle.std.specs.Prelude.{ℕ, List, []};
ghost use Rattle.program_ends.specs.Parting.{AreParted};

/// The lines into which an input is divided contain no LF. If the CRs that were dropped before an
/// LF are put back, and an LF is put between each two lines, they are exactly the bytes of the
/// input.
pub fn lines_make_up_the_input()
    ensures { (bytes : List ℕ) → AreParted [] bytes }
{}
