//! The settings of a member: a TOML text.
#![tactic(auto)]

mod address;
mod client;
mod client_entries;
mod cluster;
mod document;
mod entries;
mod fault;
mod keys;
mod strays;
mod text;

pub use address::Address;
pub use client::ClientSettings;
pub use cluster::{addresses_from, desk_base, new_settings};
pub use document::Settings;
pub use fault::SettingsFault;
pub use keys::Key;
pub use strays::{Stray, strays_of};
pub use text::address_text;
