//! The heads of two files that are compared.
ghost use Rattle.std.specs.Prelude.{◌≡◌, false, None, IfOk, IfErr};
ghost use Rattle.std.specs.Io.KnownBytes.{Consumes};
ghost use Rattle.dmr_compare.specs.Comparing.{DevicesFail};
ghost use Rattle.dmr_compare.specs.Files.{AreHeadsRefused, AreRefused, IsList};
ghost use Rattle.dmr_record.specs.Head.{head_octets, magic_of};

use crate::settings::Shift;
use crate::trouble::Trouble;
use dmr_record::{FileFormat, RecordFault, Source, read_any_head};
use dmr_recording::FaultLine;

/// A fault of a head.
fn head_fault(fault: RecordFault) -> FaultLine
    ensures fault { result.fault ≡ fault }
    ensures octet { result.octet ≡ 0 }
    ensures place { result.place ≡ None }
{
    FaultLine {
        fault,
        octet: 0,
        place: None,
    }
}

/// The format of two files, which have one, and are no lists where a shift is given.
fn one_format(
    shift: Option<Shift>,
    first: FileFormat,
    second: FileFormat,
) -> Result<FileFormat, Trouble>
    ensures first { IfOk result (λ format. first ≡ format) }
    ensures second { IfOk result (λ format. second ≡ format) }
    ensures unshifted { IfOk result (λ format. IsList format → shift ≡ None) }
    ensures trouble { IfErr result (λ trouble. AreRefused shift trouble first second) }
{
    match (first, second) {
        (FileFormat::Uplink, FileFormat::Uplink) | (FileFormat::Downlink, FileFormat::Downlink) => {
            Ok(first)
        }
        (FileFormat::Outgoing, FileFormat::Outgoing)
        | (FileFormat::Received, FileFormat::Received) => match shift {
            None => Ok(first),
            Some(_) => Err(Trouble::ShiftOfLists),
        },
        _ => Err(Trouble::OtherKind),
    }
}

/// Reads the heads of two files, and answers the format of both. A shift is given of no lists.
pub(crate) fn read_heads<S: Source, T: Source>(
    shift: Option<Shift>,
    first: &mut S,
    second: &mut T,
) -> Result<FileFormat, Trouble>
    requires first { S.has_failed first.old ≡ false }
    requires second { T.has_failed second.old ≡ false }
    ensures first_head { IfOk result (λ format.
        Consumes (S.left first.old) (S.left first.new) (head_octets (magic_of format))) }
    ensures second_head { IfOk result (λ format.
        Consumes (T.left second.old) (T.left second.new) (head_octets (magic_of format))) }
    ensures unshifted { IfOk result (λ format. IsList format → shift ≡ None) }
    ensures refused { IfErr result (λ trouble. AreHeadsRefused shift trouble
        (S.left first.old) (S.left first.new) (T.left second.old) (T.left second.new)) }
    ensures failed { DevicesFail result (S.has_failed first.new) (T.has_failed second.new) false }
{
    let first_format = match read_any_head(first) {
        Ok(format) => format,
        Err(fault) => return Err(Trouble::First(head_fault(fault))),
    };
    let second_format = match read_any_head(second) {
        Ok(format) => format,
        Err(fault) => return Err(Trouble::Second(head_fault(fault))),
    };
    one_format(shift, first_format, second_format)
}
