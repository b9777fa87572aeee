//! The settings of a run.
//!
//! `Config` is a plain struct: its fields are read as they are, and each keeps its range by a fact of the type. The order in which
//! `Config::new` tests them is `setting_fault` in `specs/Config.antt`.
#![tactic(auto)]

mod config;

pub use config::{Config, ConfigFault};
