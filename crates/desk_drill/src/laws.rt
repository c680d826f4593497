//! A law of the definitions. It has no code.
ghost use Rattle.std.specs.Prelude.{◌≡◌};
ghost use Rattle.hazard_types.specs.declared.codes.Class.TheVariants as classes;
ghost use Rattle.office_core.specs.Agreement.{ReadsAsTheBoard, texts_of};
ghost use Rattle.office_core.specs.State.{State};
ghost use Rattle.desk_drill.specs.Office.{drill_office};
ghost use Rattle.desk_drill.specs.Tellings.{breaches_in};

/// Law: if the texts of a drill's office read as its board, a reader of the texts counts 0
/// breaches. They read as its board (`ReadsAsTheBoard`) if a reader finds lawful lives of events,
/// numbers without gaps, and the rows of the board. Breaches are lines that break a rule, gaps in
/// the event numbers, and texts that do not decode.
#[tactic(auto, using(crate::proofs::Agreeing::no_breach))]
pub fn texts_that_read_as_the_board_have_no_breach()
    ensures { (s : State) → s.settings.office ≡ drill_office → s.class ≡ classes.O
        → ReadsAsTheBoard s → breaches_in (texts_of s) ≡ 0 }
{}
