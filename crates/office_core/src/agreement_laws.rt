//! Laws: the texts of an office agree with its board at first, and after each product. They have no
//! code.
ghost use Rattle.std.specs.Prelude.{◌≡◌, ◌≤◌, List, [], Option, None};
ghost use Rattle.hazard_types.specs.declared.codes.Class.{Class};
ghost use Rattle.office_types.specs.declared.request.Edition.{Edition};
ghost use Rattle.office_types.specs.declared.request.Entry.{Entry};
ghost use Rattle.desk_settings.specs.declared.settings.Settings.{Settings};
ghost use Rattle.event_numbers.specs.declared.Count.{Count};
ghost use Rattle.office_core.specs.Agreement.{Agrees};
ghost use Rattle.office_core.specs.Keeping.{MayBePlanned, ReadsWell};
ghost use Rattle.office_core.specs.Making.{Making, broken_lines};
ghost use Rattle.office_core.specs.Prepared.{draws};
ghost use Rattle.office_core.specs.Sound.{IsSound};
ghost use Rattle.office_core.specs.State.{State, first_state};
ghost use Rattle.office_core.specs.Step.{state_after};
ghost use Rattle.office_core.specs.declared.made.Made.{Made};

/// Law: before any request the texts of an office agree with its board (`Agrees`), since there are
/// no texts and no rows.
pub fn offices_begin_in_agreement()
    ensures { (settings : Settings) (class : Class) (edition : Edition) →
        Agrees (first_state settings class edition) [] }
{}

/// Law: if the texts of a sound office agree with its board (`Agrees`: a reader of the texts finds
/// the rows and the event numbers of the office), they do so after one more entry, whose minute is
/// not before that of the last. The entry makes no product, or one that was planned without a
/// broken rule and whose text reads as its plan; its events have drawn their numbers.
pub fn products_keep_the_agreement()
    ensures { (s : State) (counts after : List Count) (making : Making) (made : Option Made)
        (e : Entry) →
        IsSound s counts → Agrees s counts → s.last ≤ e.minute →
        MayBePlanned s counts e.minute making → broken_lines s e.minute making ≡ None →
        ReadsWell s e.minute making made → draws counts after made →
        Agrees (state_after s e made) after }
{}
