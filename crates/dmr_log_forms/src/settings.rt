//! What a log is set to.
use crate::start_time::StartTime;
use dmr_show::Filter;

/// How a log is printed.
#[derive(Clone, Copy, Debug, PartialEq, Eq, Drop)]
pub enum LogForm {
    /// A line for each entry, and a last line.
    Lines,
    /// A row of CSV for each entry, behind one that names the columns.
    Table,
    /// An object of JSON for each entry, and a last one.
    Json,
}

/// What a log is set to.
#[derive(Clone, Copy, Debug, PartialEq, Eq, Drop)]
pub struct LogSettings {
    /// The repeater's colour code, from 0 to 15 (ETSI TS 102 361-1, clause 9.3.1).
    pub colour: u8,
    /// The address of its gateway, from 1 to 16,777,215, if one listens.
    pub address: Option<u32>,
    /// How the log is printed.
    pub form: LogForm,
    /// When the recording began, if that is known.
    pub start: Option<StartTime>,
    /// Which entries are printed, by the place in which they begin.
    pub filter: Filter,
}
