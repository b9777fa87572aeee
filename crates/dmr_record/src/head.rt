//! The eight octets that begin each file.

ghost use Rattle.std.specs.Prelude.{◌≡◌, ◌≢◌, List, ℕ, false, true, IfOk, IfErr, IfSome, IfNone, OnOk, OnErr};
ghost use Rattle.std.specs.Io.KnownBytes.{Consumes, Appends, IsAtEnd};
ghost use Rattle.dmr_record.specs.Devices.{Tears};
ghost use Rattle.dmr_record.specs.Faults.{is_of_end, is_device_fault};
ghost use Rattle.dmr_record.specs.Head.{head_octets, magic_of, ShowsAnyHeadFault, ShowsHeadFault};

use crate::device::{Sink, Source};
use crate::fault::RecordFault;
use crate::transfer::{fill, fill_whole, put_both};

/// What an uplink file begins with: `DMRU`.
pub const UPLINK_MAGIC: [u8; 4] = [0x44, 0x4d, 0x52, 0x55];

/// What a downlink file begins with: `DMRD`.
pub const DOWNLINK_MAGIC: [u8; 4] = [0x44, 0x4d, 0x52, 0x44];

/// What an outgoing file begins with: `DMRO`.
pub const OUTGOING_MAGIC: [u8; 4] = [0x44, 0x4d, 0x52, 0x4f];

/// What a received file begins with: `DMRI`.
pub const RECEIVED_MAGIC: [u8; 4] = [0x44, 0x4d, 0x52, 0x49];

/// What stands behind the magic of each file.
const VERSION: [u8; 4] = [1, 0, 0, 0];

/// Reads the head of a file that has to have this magic.
///
/// The magic is tested before the version, and both once all eight octets are there: fewer are a `CutRecord`,
/// whatever they are. The format is this project's own.
pub fn read_head<S: Source>(source: &mut S, magic: [u8; 4]) -> Result<(), RecordFault>
    requires well { S.has_failed source.old ≡ false }
    // The octets taken are the head.
    ensures head { OnOk result (Consumes (S.left source.old) (S.left source.new) (head_octets magic)) }
    ensures well { OnOk result (S.has_failed source.new ≡ false) }
    // A fault is shown by the octets taken, all of the head.
    ensures fault { IfErr result (λ e. (taken : List ℕ) × Consumes (S.left source.old) (S.left source.new) taken
        × ShowsHeadFault magic e taken) }
    ensures cut { IfErr result (λ e. is_of_end e ≡ true → IsAtEnd (S.left source.new)) }
    // `Read` is told exactly where the device failed.
    ensures device { IfErr result (λ e. S.has_failed source.new ≡ is_device_fault e) }
{
    let mut octets = [0u8; 8];
    match fill(source, &mut octets) {
        Ok(8) => {}
        Ok(_) => return Err(RecordFault::CutRecord),
        Err(fault) => return Err(fault),
    }
    if octets[..4] != magic[..] {
        return Err(RecordFault::Magic);
    }
    if octets[4..] != VERSION[..] {
        return Err(RecordFault::Version);
    }
    Ok(())
}

/// Which of the four files a file is.
#[derive(Clone, Copy, Debug, Drop, PartialEq, Eq)]
pub enum FileFormat {
    /// The bursts that a base station received.
    Uplink,
    /// The bursts that it sends.
    Downlink,
    /// The datagrams that its gateway is to send.
    Outgoing,
    /// What the gateway received.
    Received,
}

/// The format of a file that begins with this magic, where one does.
fn format_of(magic: [u8; 4]) -> Option<FileFormat>
    ensures magic { IfSome result (λ format. magic ≡ magic_of format) }
    ensures none { IfNone result ((format : FileFormat) → magic ≢ magic_of format) }
{
    if magic[..] == UPLINK_MAGIC[..] {
        Some(FileFormat::Uplink)
    } else if magic[..] == DOWNLINK_MAGIC[..] {
        Some(FileFormat::Downlink)
    } else if magic[..] == OUTGOING_MAGIC[..] {
        Some(FileFormat::Outgoing)
    } else if magic[..] == RECEIVED_MAGIC[..] {
        Some(FileFormat::Received)
    } else {
        None
    }
}

/// Reads the head of a file of any of the four formats, and answers which it is. Else it is as `read_head`.
/// The format is this project's own.
pub fn read_any_head<S: Source>(source: &mut S) -> Result<FileFormat, RecordFault>
    requires well { S.has_failed source.old ≡ false }
    // The octets taken are the head.
    ensures head { IfOk result (λ format. Consumes (S.left source.old) (S.left source.new) (head_octets (magic_of format))) }
    ensures well { OnOk result (S.has_failed source.new ≡ false) }
    // A fault is shown by the octets taken, all of the head.
    ensures fault { IfErr result (λ e. (taken : List ℕ) × Consumes (S.left source.old) (S.left source.new) taken
        × ShowsAnyHeadFault e taken) }
    ensures cut { IfErr result (λ e. is_of_end e ≡ true → IsAtEnd (S.left source.new)) }
    // `Read` is told exactly where the device failed.
    ensures device { IfErr result (λ e. S.has_failed source.new ≡ is_device_fault e) }
{
    let mut octets = [0u8; 8];
    fill_whole(source, &mut octets, 8)?;
    let mut magic = [0u8; 4];
    magic.copy_from_slice(&octets[..4]);
    match format_of(magic) {
        Some(_) if octets[4..] != VERSION[..] => Err(RecordFault::Version),
        Some(format) => Ok(format),
        None => Err(RecordFault::Magic),
    }
}

/// Writes the head of a file with this magic. At an `Err` the sink failed with a front of it out. The format is this project's own.
pub fn write_head<K: Sink>(sink: &mut K, magic: [u8; 4]) -> Result<(), RecordFault>
    requires well { K.has_failed sink.old ≡ false }
    ensures head { OnOk result (Appends (K.held sink.old) (K.held sink.new) (head_octets magic)) }
    ensures well { OnOk result (K.has_failed sink.new ≡ false) }
    ensures fault { IfErr result (λ e. e ≡ RecordFault.Write) }
    ensures failed { OnErr result (K.has_failed sink.new ≡ true) }
    ensures torn { OnErr result (Tears (K.held sink.old) (K.held sink.new) (head_octets magic)) }
{
    put_both(sink, &magic, &VERSION)
}
