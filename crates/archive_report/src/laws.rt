//! A law of reports. The function does nothing; its contract is the law.
ghost use Rattle.std.specs.Prelude.{ℕ, List as Seq};
ghost use Rattle.archive_report.specs.Runs.{IsFinishedWritten, IsEarly};
ghost use Rattle.archive_report.specs.declared.words.Asked.{Asked as AskedValue};

/// For any office, class and minute, the lines of the products that are finished within a text are
/// a prefix of the report of each input that begins with this text. A product is finished within a
/// text if the heading line of the next product stands there whole.
#[tactic(auto, using(crate::proofs::Fronts::told_early))]
pub fn what_is_told_begins_the_report()
    ensures { (asked : AskedValue) (read told : Seq ℕ) → IsFinishedWritten asked read told
        → IsEarly asked read told }
{}
