//! Look-ups in tables of codes, both ways.
ghost use Rattle.std.specs.Prelude.{◌≡◌, ℕ, List, Some, IfSome, IfNone};
ghost use Rattle.hazard_types.specs.Codes.{without_padding, filled, value_for_code, code_for_value, SomeRow, IsTable, HoldsOfIdentical};

use crate::codes::Coded;

/// Returns the bytes of a code before its first space, or all four if it has none.
fn without_padding(code: &[u8; 4]) -> &[u8]
    ensures { result.now ≡ without_padding code.now }
{
    for (i, byte) in code.iter().enumerate() {
        if *byte == b' ' {
            return &code[..i];
        }
    }
    code
}

/// Returns the value of the first row with this code, or `None` if no row has it. `code` is given
/// without blanks.
///
/// Source: docs/DECISIONS.md, "Reading of texts" (codes in look-ups).
pub fn find<T: Copy, const N: usize>(rows: &[Coded<T>; N], code: &[u8]) -> Option<T>
    ensures value { result ≡ value_for_code rows.now code.now }
    ensures found { IfSome result (λ v.
        SomeRow (λ row. (without_padding row.code ≡ code.now) × (row.value ≡ v)) rows.now) }
    ensures none { IfNone result (¬ SomeRow (λ row. without_padding row.code ≡ code.now) rows.now) }
{
    for row in rows {
        if without_padding(&row.code) == code {
            return Some(row.value);
        }
    }
    None
}

/// Returns the code of the first row with this value, with the blanks that fill it up to four
/// bytes, or `None` if no row has the value. `==` of `T` must hold only of identical values.
pub fn code_of<T: Copy + Eq, const N: usize>(rows: &[Coded<T>; N], value: T) -> Option<[u8; 4]>
    requires { HoldsOfIdentical T.eq }
    ensures value { result ≡ code_for_value T.eq rows.now value }
    ensures found { IfSome result (λ c.
        SomeRow (λ row. (row.code ≡ c) × (row.value ≡ value)) rows.now) }
    ensures none { IfNone result (¬ SomeRow (λ row. row.value ≡ value) rows.now) }
{
    for row in rows {
        if row.value == value {
            return Some(row.code);
        }
    }
    None
}

/// If the look-up of a code in a table finds a value, the look-up of this value finds the code,
/// padded with blanks to four bytes. If the look-up of a value finds a code, the look-up of this
/// code without its blanks finds the value. In a table no two rows have the same code or the same
/// value.
pub fn tables_are_inverse<T: Copy + Eq>()
    ensures read_back { (rows : List (Coded T)) (code : List ℕ) (v : T) →
        HoldsOfIdentical T.eq → IsTable rows → value_for_code rows code ≡ Some v →
        code_for_value T.eq rows v ≡ Some (filled code) }
    ensures written_back { (rows : List (Coded T)) (code : List ℕ) (v : T) →
        HoldsOfIdentical T.eq → IsTable rows → code_for_value T.eq rows v ≡ Some code →
        value_for_code rows (without_padding code) ≡ Some v }
{}
