//! The settings, with the keys and the write counters of the RPMB regions: what a settings page says,
//! and the page that says it. Its layout is this profile's, version 1; JESD220, 14 has the attributes
//! and flags, and 12.4 the keys and the counters.
#![tactic(auto)]

mod page;

pub use page::{Settings, is_settings_page};
