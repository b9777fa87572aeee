//! Two lists, compared record by record behind their heads.
ghost use Rattle.std.specs.Prelude.{◌≡◌, ◌≤◌, List, false, length, IfOk, IfErr};
ghost use Rattle.dmr_compare.specs.Comparing.{DevicesFail};
ghost use Rattle.dmr_compare.specs.ListComparing.{AreListsCompared, AreListsComparedUpTo};
ghost use Rattle.dmr_compare.specs.ListRecords.{ListRecord};

use crate::counts::PlaceCounts;
use crate::list_reader::ListReader;
use crate::list_record::ListKind;
use crate::list_taking::take_records;
use crate::settings::CompareSettings;
use crate::trouble::Trouble;
use dmr_record::{OCTET_LIMIT, Sink, Source};
use std::alloc::{AllocError, Global};

/// How many octets the longest line has at most: that of a received record, whose octets stand in digits behind its fields.
const LONGEST_LINE: usize = 2 * OCTET_LIMIT + 200;

/// Room for a record of each of two lists, and for the text of a line.
#[derive(Drop)]
pub(crate) struct ListRooms {
    pub(crate) first: Vec<u8>,
    pub(crate) second: Vec<u8>,
    pub(crate) text: String,
}

impl ListRooms {
    /// Room for any record.
    pub(crate) fn new(alloc: Global) -> Result<ListRooms, AllocError>
        ensures first { IfOk result (λ rooms. 65535 ≤ length rooms.first.items) }
        ensures second { IfOk result (λ rooms. 65535 ≤ length rooms.second.items) }
    {
        Ok(ListRooms {
            first: vec![in alloc; 0u8; OCTET_LIMIT]?,
            second: vec![in alloc; 0u8; OCTET_LIMIT]?,
            text: String::with_capacity(alloc, LONGEST_LINE)?,
        })
    }
}

/// Compares two lists behind their heads, as far as both can be read, and prints the two lines of each difference. Each room takes
/// the octets of a record, `text` a line, and all of them may hold anything.
pub(crate) fn compare_lists<S: Source, T: Source, K: Sink>(
    settings: &CompareSettings,
    list: ListKind,
    first_room: &mut [u8],
    second_room: &mut [u8],
    text: &mut String,
    first: &mut S,
    second: &mut T,
    sink: &mut K,
) -> Result<PlaceCounts, Trouble>
    requires first { S.has_failed first.old ≡ false }
    requires second { T.has_failed second.old ≡ false }
    requires sink { K.has_failed sink.old ≡ false }
    requires first_room { 65535 ≤ length first_room.old }
    requires second_room { 65535 ≤ length second_room.old }
    ensures whole { IfOk result (λ counts. (firsts : List ListRecord) × (seconds : List ListRecord)
        × AreListsCompared settings.now list firsts seconds counts
        (S.left first.old) (S.left first.new) (T.left second.old) (T.left second.new) (K.held sink.old) (K.held sink.new)) }
    ensures part { IfErr result (λ trouble. AreListsComparedUpTo settings.now list trouble
        (S.left first.old) (S.left first.new) (T.left second.old) (T.left second.new) (K.held sink.old) (K.held sink.new)) }
    ensures failed { DevicesFail result (S.has_failed first.new) (T.has_failed second.new) (K.has_failed sink.new) }
{
    let mut one = ListReader::new(list);
    let mut other = ListReader::new(list);
    let mut counts = PlaceCounts::default();
    loop {
        let of_first = match one.next(first, first_room) {
            Ok(found) => found,
            Err(fault) => return Err(Trouble::First(fault)),
        };
        let of_second = match other.next(second, second_room) {
            Ok(found) => found,
            Err(fault) => return Err(Trouble::Second(fault)),
        };
        if of_first.is_none() && of_second.is_none() {
            return Ok(counts);
        }
        let taken = take_records(
            settings,
            of_first,
            first_room,
            of_second,
            second_room,
            text,
            &mut counts,
            sink,
        );
        if taken.is_err() {
            return Err(Trouble::Output);
        }
    }
}
