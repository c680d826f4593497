//! The abbreviations of local time, as `EST`.
ghost use Rattle.std.specs.Prelude.{◌≡◌, ◌≤◌};
ghost use Rattle.desk_clock.specs.Abbreviations.{letters_of, hours_behind};

/// The abbreviation that a local line has for the zone of its time. `Gmt` is read and never
/// written.
#[derive(Clone, Copy, Debug, PartialEq, Eq)]
pub enum Abbreviation {
    Ast,
    Est,
    Edt,
    Cst,
    Cdt,
    Mst,
    Mdt,
    Pst,
    Pdt,
    Akst,
    Akdt,
    Hst,
    Utc,
    Gmt,
}

impl Abbreviation {
    /// Returns the capital letters of the abbreviation, as `AKST`.
    pub fn letters(self) -> &'static [u8]
        ensures { result.now ≡ letters_of self }
    {
        match self {
            Abbreviation::Ast => b"AST",
            Abbreviation::Est => b"EST",
            Abbreviation::Edt => b"EDT",
            Abbreviation::Cst => b"CST",
            Abbreviation::Cdt => b"CDT",
            Abbreviation::Mst => b"MST",
            Abbreviation::Mdt => b"MDT",
            Abbreviation::Pst => b"PST",
            Abbreviation::Pdt => b"PDT",
            Abbreviation::Akst => b"AKST",
            Abbreviation::Akdt => b"AKDT",
            Abbreviation::Hst => b"HST",
            Abbreviation::Utc => b"UTC",
            Abbreviation::Gmt => b"GMT",
        }
    }

    /// Returns how many hours a clock of the abbreviation is behind UTC, 0 to 10.
    pub fn hours_behind(self) -> u8
        ensures value { result ≡ hours_behind self }
        ensures range { result ≤ 10 }
    {
        match self {
            Abbreviation::Utc | Abbreviation::Gmt => 0,
            Abbreviation::Ast | Abbreviation::Edt => 4,
            Abbreviation::Est | Abbreviation::Cdt => 5,
            Abbreviation::Cst | Abbreviation::Mdt => 6,
            Abbreviation::Mst | Abbreviation::Pdt => 7,
            Abbreviation::Pst | Abbreviation::Akdt => 8,
            Abbreviation::Akst => 9,
            Abbreviation::Hst => 10,
        }
    }
}
