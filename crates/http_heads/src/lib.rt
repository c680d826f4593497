//! The fields of an HTTP head: which of them have a name or ask to close, in any letter case. For
//! crates that read calls or answers with `httparse`. One begins with `is_named`, `has_field` and
//! `has_close`.
#![tactic(auto)]

ghost use Rattle.std.specs.Prelude.{◌≡◌, length, map, All};
ghost use Rattle.httparse.specs.Spans.{IsHeaderWithin, header_bytes};
ghost use Rattle.http_heads.specs.Fields.{asks_to_close, has_close, has_field, is_named};
ghost use Rattle.http_heads.specs.Fields.{same_letters};

use httparse::spans::HeaderSpan;

/// Whether the two texts are equal, where the case of ASCII letters does not count.
fn same_letters(one: &[u8], other: &[u8]) -> bool
    ensures { result ≡ same_letters one.now other.now }
{
    one.eq_ignore_ascii_case(other)
}

/// Whether the field has this name, in any letter case. `buf` has the bytes of the head, and
/// `field` tells where in them the field's name and value are.
pub fn is_named(buf: &[u8], field: &HeaderSpan, name: &[u8]) -> bool
    requires { IsHeaderWithin (length buf.now) field.now }
    ensures { result ≡ is_named name.now (header_bytes buf.now field.now) }
{
    same_letters(field.name.of(buf), name)
}

/// Whether one of the fields has this name, in any letter case. `buf` has the bytes of the head,
/// and `fields` tell where in them the names and values are.
pub fn has_field(buf: &[u8], fields: &[HeaderSpan], name: &[u8]) -> bool
    requires { All (IsHeaderWithin (length buf.now)) fields.now }
    ensures { result ≡ has_field name.now (map (header_bytes buf.now) fields.now) }
{
    for field in fields {
        if is_named(buf, field, name) {
            return true;
        }
    }
    false
}

/// Whether the field's name is `Connection` and its whole value `close`, both in any letter case.
/// `buf` has the bytes of the head, and `field` tells where in them the field's name and value are.
fn asks_to_close(buf: &[u8], field: &HeaderSpan) -> bool
    requires { IsHeaderWithin (length buf.now) field.now }
    ensures { result ≡ asks_to_close (header_bytes buf.now field.now) }
{
    is_named(buf, field, b"connection") && same_letters(field.value.of(buf), b"close")
}

/// Whether one of the fields has the name `Connection` and `close` as its whole value, both in any
/// letter case. `buf` has the bytes of the head, and `fields` tell where in them the names and
/// values are.
pub fn has_close(buf: &[u8], fields: &[HeaderSpan]) -> bool
    requires { All (IsHeaderWithin (length buf.now)) fields.now }
    ensures { result ≡ has_close (map (header_bytes buf.now) fields.now) }
{
    for field in fields {
        if asks_to_close(buf, field) {
            return true;
        }
    }
    false
}
