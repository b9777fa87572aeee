//! Why a file could not be read or written.

use thiserror::Error;

/// The first fault that the octets of a file show, or that its device failed.
///
/// `CutRecord` and `HalfFrame` are told at the end of the octets alone. `Read` and `Write` are told only where
/// the device failed in that very call. The numbers are this project's own.
#[derive(Clone, Copy, Debug, Drop, PartialEq, Eq, Error)]
pub enum RecordFault {
    /// The file begins with other octets than the magic of its stream.
    #[error("bad magic")]
    Magic = 1,
    /// Other octets than `01 00 00 00` stand behind the magic.
    #[error("bad version")]
    Version = 2,
    /// The file ends inside its head or inside a record.
    #[error("cut record")]
    CutRecord = 3,
    /// A record begins with an octet that begins none, or names no slot, no mode or no kind.
    #[error("bad tag")]
    BadTag = 4,
    /// The file ends behind slot 1 of a frame.
    #[error("half frame")]
    HalfFrame = 5,
    /// A record of the outgoing file has an earlier frame than the one before it, or one of the received file
    /// doesn't stand behind the one before it in the order of frames, slots and kinds.
    #[error("frame order")]
    FrameOrder = 6,
    /// There are more frames or records than a file may have.
    #[error("too long")]
    TooLong = 7,
    /// The source failed.
    #[error("read failed")]
    Read = 8,
    /// The sink failed.
    #[error("write failed")]
    Write = 9,
}
