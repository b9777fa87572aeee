//! What is counted of a capture, and how importing one ended.
ghost use Rattle.std.specs.Prelude.{Some};
ghost use Rattle.dmr_dmrd.specs.CountTexts.{imported_bursts_text};

use dmr_capture::CaptureFault;
use std::fmt;

/// What was made of a capture.
#[derive(Clone, Copy, Debug, Drop, PartialEq, Eq)]
pub struct ImportedBursts {
    /// How many frames the recording has.
    pub frames: u32,
    /// How many bursts stand in slot 1.
    pub slot_1: u32,
    /// How many bursts stand in slot 2.
    pub slot_2: u32,
    /// How many numbers were left out between packets of one stream.
    pub lost: u32,
    /// How many packets were late, and dropped.
    pub late: u64,
    /// How many packets weren't taken.
    pub other: u64,
}

impl fmt::Display for ImportedBursts {
    ghost output = { λ imported. Some (imported_bursts_text imported) };

    /// `frames 20 slot-1 18 slot-2 0 lost 2 late 0 other 0`
    fn fmt<W: fmt::Write>(&self, f: &mut fmt::Formatter<W>) -> fmt::Result {
        let ImportedBursts {
            frames,
            slot_1,
            slot_2,
            lost,
            late,
            other,
        } = *self;
        write!(f, "frames {frames} slot-1 {slot_1} slot-2 {slot_2}")?;
        write!(f, " lost {lost} late {late} other {other}")
    }
}

/// Why no recording was made of a capture, or none to its end.
#[derive(Clone, Copy, Drop, PartialEq, Eq)]
pub enum ImportEnd {
    /// The capture is at fault, or a packet asks for a frame past the limit of a recording. Nothing was written.
    Capture(CaptureFault),
    /// The recording could not be written.
    Output,
    /// There was no memory for the bursts. Nothing was written.
    Memory,
}
