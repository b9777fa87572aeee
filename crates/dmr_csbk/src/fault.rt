//! Why 196 bits hold no control signalling block.
use thiserror::Error;

/// Why a control signalling block was not read. The numbers are this project's own.
#[derive(Clone, Copy, Debug, Drop, PartialEq, Eq, Error)]
pub enum CsbkFault {
    /// The product code gives no word.
    #[error("no product word")]
    Bptc = 1,
    /// The check does not seal the fields.
    #[error("wrong check")]
    Crc = 2,
}
