//! The lines that a source makes itself, by a seed.
#![tactic(auto)]

mod demo_settings;

pub use demo_settings::DemoSettings;
