//! Why settings are refused.
use hazard_types::Text;
use std::str;
use thiserror::Error;

/// Why settings are refused. `key` is written as in the document, and a key of the table `headings`
/// as `headings.WSW`.
///
/// Source: docs/SETTINGS.md, "Faults".
#[derive(Debug, Drop, PartialEq, Eq, Error)]
pub enum SettingsFault {
    /// The bytes are not UTF-8, or no TOML document. A document that has a key twice is not TOML.
    #[error("the settings are no TOML document")]
    NotToml,
    /// The first key that is not there.
    #[error("the key `{}` is missing", name_of(.key))]
    Missing { key: Text },
    /// The first key whose value does not have its form.
    #[error("the value of the key `{}` has not its form", name_of(.key))]
    BadValue { key: Text },
    /// A desk is named twice; the key is `desks`.
    #[error("a value stands twice in the key `{}`", name_of(.key))]
    Twice { key: Text },
    /// There are more than 1,048,576 bytes.
    #[error("the settings have more than 1048576 bytes")]
    TooLong,
}

/// Returns the key as a string, or `?` if it is not UTF-8.
fn name_of(key: &Text) -> &str {
    str::from_utf8(key.as_slice()).unwrap_or("?")
}
