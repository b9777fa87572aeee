//! Why a line could not be told.
use thiserror::Error;

/// Why a line could not be told. The numbers are this project's own.
#[derive(Clone, Copy, Debug, Drop, PartialEq, Eq, Error)]
pub enum LineFault {
    /// More than `LINE_LIMIT` octets have come, and no line feed among them.
    #[error("too long")]
    TooLong = 1,
    /// There may be a line behind the one of the greatest number, 2^64 - 2.
    #[error("too long")]
    TooMany = 2,
    /// The source failed.
    #[error("read failed")]
    Read = 3,
}
