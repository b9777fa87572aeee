//! Two files, compared.
ghost use Rattle.std.specs.Prelude.{◌≡◌, ◌≤◌, List, None, false, true, IfOk, IfErr};
ghost use Rattle.dmr_compare.specs.Comparing.{DevicesFail, DevicesFailAt};
ghost use Rattle.dmr_compare.specs.Files.{AreComparedInPart, AreComparedWhole, AreContentsCompared, AreContentsComparedUpTo};
ghost use Rattle.dmr_compare.specs.Files.{AreToldApart, BothContents, IsList};
ghost use Rattle.dmr_compare.specs.ListComparing.{AreListsCompared, AreListsComparedUpTo};
ghost use Rattle.dmr_compare.specs.ListRecords.{ListRecord};
ghost use Rattle.dmr_compare.specs.Status.{different, same, trouble};
ghost use Rattle.dmr_compare.specs.declared.trouble.Trouble as declared;
ghost use Rattle.dmr_lines.specs.Line.{PutsError};

use crate::comparing::compare_recordings;
use crate::counts::PlaceCounts;
use crate::heads::read_heads;
use crate::list_comparing::{ListRooms, compare_lists};
use crate::list_record::ListKind;
use crate::settings::CompareSettings;
use crate::status::TROUBLE;
use crate::telling::{FileNames, tell};
use crate::trouble::Trouble;
use dmr_record::{FileFormat, Sink, Source, put};
use dmr_recording::Recording;
use std::alloc::Global;

/// Compares two lists behind their heads, as far as both can be read, where there is memory for their records.
fn compare_lists_behind<S: Source, T: Source, K: Sink>(
    alloc: Global,
    settings: &CompareSettings,
    list: ListKind,
    first: &mut S,
    second: &mut T,
    out: &mut K,
) -> Result<PlaceCounts, Trouble>
    requires first { S.has_failed first.old ≡ false }
    requires second { T.has_failed second.old ≡ false }
    requires out { K.has_failed out.old ≡ false }
    ensures whole { IfOk result (λ counts. (firsts : List ListRecord) × (seconds : List ListRecord)
        × AreListsCompared settings.now list firsts seconds counts
        (S.left first.old) (S.left first.new) (T.left second.old) (T.left second.new) (K.held out.old) (K.held out.new)) }
    ensures part { IfErr result (λ reason. AreListsComparedUpTo settings.now list reason
        (S.left first.old) (S.left first.new) (T.left second.old) (T.left second.new) (K.held out.old) (K.held out.new)) }
    ensures failed { DevicesFail result (S.has_failed first.new) (T.has_failed second.new) (K.has_failed out.new) }
{
    let Ok(mut rooms) = ListRooms::new(alloc) else {
        return Err(Trouble::Memory);
    };
    compare_lists(
        settings,
        list,
        &mut rooms.first,
        &mut rooms.second,
        &mut rooms.text,
        first,
        second,
        out,
    )
}

/// Compares what stands behind the heads of two files of this format, as far as both can be read, and prints what differs.
fn compare_behind<S: Source, T: Source, K: Sink>(
    alloc: Global,
    settings: &CompareSettings,
    format: FileFormat,
    first: &mut S,
    second: &mut T,
    out: &mut K,
) -> Result<PlaceCounts, Trouble>
    requires first { S.has_failed first.old ≡ false }
    requires second { T.has_failed second.old ≡ false }
    requires out { K.has_failed out.old ≡ false }
    requires unshifted { IsList format → settings.now.shift ≡ None }
    ensures whole { IfOk result (λ counts. (contents : BothContents) × AreContentsCompared settings.now format contents counts
        (S.left first.old) (S.left first.new) (T.left second.old) (T.left second.new) (K.held out.old) (K.held out.new)) }
    ensures part { IfErr result (λ reason. AreContentsComparedUpTo settings.now format reason
        (S.left first.old) (S.left first.new) (T.left second.old) (T.left second.new) (K.held out.old) (K.held out.new)) }
    ensures failed { DevicesFail result (S.has_failed first.new) (T.has_failed second.new) (K.has_failed out.new) }
{
    match format {
        FileFormat::Uplink => {
            compare_recordings(settings, Recording::Uplink, first, second, out)
        }
        FileFormat::Downlink => {
            compare_recordings(settings, Recording::Downlink, first, second, out)
        }
        FileFormat::Outgoing => {
            compare_lists_behind(alloc, settings, ListKind::Outgoing, first, second, out)
        }
        FileFormat::Received => {
            compare_lists_behind(alloc, settings, ListKind::Received, first, second, out)
        }
    }
}

/// Compares two files, as far as both can be read, and prints what differs and the counts.
fn compare_to<S: Source, T: Source, K: Sink>(
    alloc: Global,
    settings: &CompareSettings,
    first: &mut S,
    second: &mut T,
    out: &mut K,
) -> Result<PlaceCounts, Trouble>
    requires first { S.has_failed first.old ≡ false }
    requires second { T.has_failed second.old ≡ false }
    requires out { K.has_failed out.old ≡ false }
    ensures whole { IfOk result (λ counts. (format : FileFormat) × (contents : BothContents)
        × AreComparedWhole settings.now format contents counts
        (S.left first.old) (S.left first.new) (T.left second.old) (T.left second.new) (K.held out.old) (K.held out.new)) }
    ensures part { IfErr result (λ reason. AreComparedInPart settings.now reason
        (S.left first.old) (S.left first.new) (T.left second.old) (T.left second.new) (K.held out.old) (K.held out.new)) }
    ensures failed { DevicesFail result (S.has_failed first.new) (T.has_failed second.new) (K.has_failed out.new) }
{
    let format = read_heads(settings.shift, first, second)?;
    let counts = compare_behind(alloc, settings, format, first, second, out)?;
    match put(out, counts.line().as_slice()) {
        Ok(()) => Ok(counts),
        Err(_) => Err(Trouble::Output),
    }
}

/// Compares two files of one format, as far as both can be read, and answers the exit status: recordings slot by slot, lists record
/// by record. The sources stand before the heads. Of each place that differs two lines go to the first sink, and behind them goes
/// one line with the counts. A fault of a file is told on the second sink, by the name of that file. So is that the files are of
/// two formats, or lists for which a shift is given, and that there is no memory for the records of lists.
pub fn compare<S: Source, T: Source, K: Sink, E: Sink>(
    alloc: Global,
    settings: &CompareSettings,
    names: &FileNames<'_>,
    first: &mut S,
    second: &mut T,
    out: &mut K,
    err: &mut E,
) -> u8
    requires first { S.has_failed first.old ≡ false }
    requires second { T.has_failed second.old ≡ false }
    requires out { K.has_failed out.old ≡ false }
    requires err { E.has_failed err.old ≡ false }
    // Both files were read whole and compared, and the status is 0 exactly where they are the same, of what isn't ignored.
    ensures whole { result ≤ 1 → AreToldApart settings.now result
        (S.left first.old) (S.left first.new) (T.left second.old) (T.left second.new) (K.held out.old) (K.held out.new) }
    ensures success { result ≤ 1 → err.new ≡ err.old }
    // Or they were compared in part, for a reason that says which device failed.
    ensures part { result ≡ trouble → (reason : declared.Trouble) × AreComparedInPart settings.now reason
        (S.left first.old) (S.left first.new) (T.left second.old) (T.left second.new) (K.held out.old) (K.held out.new)
        × DevicesFailAt reason (S.has_failed first.new) (T.has_failed second.new) (K.has_failed out.new) }
    // It is told, unless what differs can't be printed.
    ensures told { result ≡ trouble → K.has_failed out.new ≡ false → E.has_failed err.new ≡ false
        → PutsError (E.held err.old) (E.held err.new) }
    ensures untold { K.has_failed out.new ≡ true → err.new ≡ err.old }
    ensures status { result ≤ 2 }
    ensures first_failed { S.has_failed first.new ≡ true → result ≡ trouble }
    ensures second_failed { T.has_failed second.new ≡ true → result ≡ trouble }
    ensures out_failed { K.has_failed out.new ≡ true → result ≡ trouble }
    ensures err_failed { E.has_failed err.new ≡ true → result ≡ trouble }
{
    match compare_to(alloc, settings, first, second, out) {
        Ok(counts) => counts.status(),
        Err(Trouble::Output) => TROUBLE,
        Err(reason) => {
            tell(alloc, names, &reason, err);
            TROUBLE
        }
    }
}
