//! Laws of accepted settings. The functions do nothing; their contracts are the laws.
ghost use Rattle.std.specs.Prelude.{◌≡◌, ℕ, List, Ok};
ghost use Rattle.desk_settings.specs.Reading.{settings_of};
ghost use Rattle.desk_settings.specs.AreSettings.{AreSettings};
ghost use Rattle.desk_settings.specs.declared.settings.Settings.{Settings};

/// Accepted settings have the forms that docs/SETTINGS.md asks for: code, site, line, headings and
/// names are well formed, there are 1 to 64 desks, each once, and 1 to 2,000 zones in ascending
/// order, each once. They accept no zone but these.
pub fn settings_have_forms()
    ensures { (bytes : List ℕ) (s : Settings) → settings_of bytes ≡ Ok s → AreSettings s }
{}
