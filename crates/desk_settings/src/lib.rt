//! The settings of an office, read from a TOML document (docs/SETTINGS.md).
//!
//! For crates that run an office or write its products. One begins with `read_settings`,
//! `Settings::zone_name` and `Settings::heading_for`; training has `training_settings`.
#![tactic(auto)]

mod fault;
mod fields;
mod forms;
mod keys;
mod laws;
mod read;
mod settings;
mod training;

pub use fault::SettingsFault;
pub use forms::local_zone_in;
pub use laws::settings_have_forms;
pub use read::read_settings;
pub use settings::Settings;
pub use training::training_settings;
