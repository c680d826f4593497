//! Tests of the characters of codes and texts.
ghost use Rattle.std.specs.Prelude.{◌≡◌};
ghost use Rattle.std.specs.List.{list_all};
ghost use Rattle.hazard_types.specs.Characters.{is_name_byte, is_blank, is_printable, is_office, is_location, location_at};

/// Whether the byte is A-Z or 0-9.
pub fn is_name_byte(byte: u8) -> bool
    ensures { result ≡ is_name_byte byte }
{
    byte.is_ascii_uppercase() || byte.is_ascii_digit()
}

/// Whether the byte is a space or a tab.
pub fn is_blank(byte: u8) -> bool
    ensures { result ≡ is_blank byte }
{
    byte == b' ' || byte == b'\t'
}

/// Whether the byte is a printable ASCII character, from the space to `~`.
pub fn is_printable(byte: u8) -> bool
    ensures { result ≡ is_printable byte }
{
    32 <= byte && byte <= 126
}

/// Whether each byte is A-Z or 0-9; true if there are no bytes.
pub fn are_name_bytes(text: &[u8]) -> bool
    ensures { result ≡ list_all is_name_byte text.now }
{
    text.iter().all(|byte| is_name_byte(*byte))
}

/// Whether the text is the code of an office: four characters of A-Z and 0-9, as `KLWX`.
///
/// Source: NWS Instruction 10-1703, P-VTEC office identifier.
pub fn is_office(text: &[u8]) -> bool
    ensures { result ≡ is_office text.now }
{
    text.len() == 4 && are_name_bytes(text)
}

/// Whether the text is the code of a location: five characters of A-Z and 0-9, as `FDKM2`.
///
/// Source: NWS Instruction 10-1703, H-VTEC location identifier.
pub fn is_location(text: &[u8]) -> bool
    ensures { result ≡ is_location text.now }
{
    text.len() == 5 && are_name_bytes(text)
}

/// Returns the five characters of the code of a location, as `FDKM2`, or `None` if the text is not
/// exactly five characters of A-Z and 0-9.
///
/// Source: NWS Instruction 10-1703, H-VTEC location identifier.
pub fn parse_location(text: &[u8]) -> Option<[u8; 5]>
    ensures { result ≡ location_at text.now }
{
    let [a, b, c, d, e] = text else {
        return None;
    };
    if are_name_bytes(text) {
        Some([*a, *b, *c, *d, *e])
    } else {
        None
    }
}
