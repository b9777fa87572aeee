//! Laws of captures, as the contracts of functions that do nothing.
//!
//! A capture that was written is a capture, of exactly the packets that were written.

ghost use Rattle.std.specs.Prelude.{◌≤◌, List, length};
ghost use Rattle.std.specs.List.{AllByRecursion};
ghost use Rattle.dmr_capture.specs.Reading.{IsCapture};
ghost use Rattle.dmr_capture.specs.State.{octet_limit};
ghost use Rattle.dmr_capture.specs.Written.{WrittenPacket, IsWritable, written_capture, packets_at};

/// The packets of a written capture are read back: their octets, their times and where they begin. It holds of each capture that
/// isn't longer than a capture may be.
pub fn written_packets_are_read_back()
    ensures back { (packets : List WrittenPacket) → AllByRecursion IsWritable packets
        → length (written_capture packets) ≤ octet_limit → IsCapture (written_capture packets) (packets_at 24 packets) }
{}
