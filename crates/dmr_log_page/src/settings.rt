//! What a page is set to.
use dmr_log_forms::StartTime;

/// What a page is set to.
#[derive(Clone, Copy, Debug, PartialEq, Eq, Drop)]
pub struct PageSettings {
    /// The repeater's colour code, from 0 to 15 (ETSI TS 102 361-1, clause 9.3.1).
    pub colour: u8,
    /// The address of its gateway, from 1 to 16,777,215, if one listens.
    pub address: Option<u32>,
    /// When the recording began, if that is known. Times are times of day then, of UTC.
    pub start: Option<StartTime>,
}
