//! Why 196 bits hold no full link control.
use thiserror::Error;

/// Why a full link control was not read. The numbers are this project's own.
#[derive(Clone, Copy, Debug, Drop, PartialEq, Eq, Error)]
pub enum LcFault {
    /// The product code gives no word.
    #[error("no product word")]
    Bptc = 1,
    /// No sealed link control is within one octet.
    #[error("wrong parity")]
    Parity = 2,
}
