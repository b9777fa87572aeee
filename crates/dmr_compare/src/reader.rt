//! A recording, read slot by slot.
ghost use Rattle.std.specs.Prelude.{◌≡◌, ◌+◌, ◌≤◌, ◌++◌, ℕ, List, Option, Some, [], false, true, length, IfOk, IfErr, OnOk};
ghost use Rattle.std.specs.Prelude.{IfSome, IfNone};
ghost use Rattle.std.specs.Io.KnownBytes.{IsAtEnd};
ghost use Rattle.dmr_listing.specs.ListingRules.{IsReadUpToFault};
ghost use Rattle.dmr_recording.specs.Places.{place_by_number};
ghost use Rattle.dmr_record.specs.Faults.{is_device_fault, is_of_end};
ghost use Rattle.dmr_record.specs.NextSlot.{slot_if_any};
ghost use Rattle.dmr_compare.specs.Reading.{HasRead, slots_to_come};
ghost use Rattle.dmr_compare.specs.Slots.{ListedSlot, lines_of, bare_slots};
ghost use Rattle.dmr_compare.specs.Taking.{found_next};

use crate::listed::list_slot;
use dmr_listing::{ListedBurst, RecordingView};
use dmr_record::{NextSlot, RecordFault, Source};
use dmr_recording::{FaultLine, HEAD_OCTETS, Place, Recording, read_recording, record_octets};

/// Where the reading of a recording stands.
#[derive(Drop)]
pub(crate) struct SlotReader {
    pub(crate) recording: Recording,
    /// What the lines of the next slots need of those before.
    pub(crate) view: RecordingView,
    /// Where the next record begins, in octets behind the begin of the file.
    pub(crate) octet: u64,
    /// Whether the end was seen. A device isn't asked again then.
    pub(crate) is_over: bool,
}

impl SlotReader {
    /// Nothing was read behind the head of a recording.
    pub(crate) fn new(recording: Recording) -> SlotReader
        ensures none { (left : Option (List ℕ)) → HasRead result [] left left }
        ensures recording { result.recording ≡ recording }
        ensures begun { result.is_over ≡ false }
    {
        SlotReader {
            recording,
            view: RecordingView::new(),
            octet: HEAD_OCTETS,
            is_over: false,
        }
    }

    /// The place of the next slot.
    pub(crate) fn place(&self) -> Place
        ensures value { result ≡ place_by_number self.now.view.slots }
    {
        Place::of_slot(self.view.slots())
    }

    /// A fault of the next record.
    fn fault_line(&self, fault: RecordFault) -> FaultLine
        ensures fault { result.fault ≡ fault }
        ensures octet { result.octet ≡ self.now.octet }
        ensures place { result.place ≡ Some (place_by_number self.now.view.slots) }
    {
        FaultLine {
            fault,
            octet: self.octet,
            place: Some(self.place()),
        }
    }

    /// Reads the next slot, if there is one. The source stands behind the slots that were read. Behind a fault the reader isn't
    /// used again.
    pub(crate) fn next<S: Source>(
        &mut self,
        source: &mut S,
    ) -> Result<NextSlot<ListedBurst>, FaultLine>
        requires source { S.has_failed source.old ≡ false }
        requires stands { (slots : List ListedSlot) × (start : Option (List ℕ)) × HasRead self.old slots start (S.left source.old) }
        // The slot that is found stands behind those that were read.
        ensures read { IfOk result (λ found. (slots : List ListedSlot) (start : Option (List ℕ))
            → HasRead self.old slots start (S.left source.old)
            → HasRead self.new (slots ++ found_next (slot_if_any found)) start (S.left source.new)) }
        // There is one exactly where the end wasn't and isn't seen.
        ensures some { IfOk result (λ found. IfSome (slot_if_any found)
            (λ slot. (self.old.is_over ≡ false) × (self.new.is_over ≡ false))) }
        ensures none { IfOk result (λ found. IfNone (slot_if_any found) (self.new.is_over ≡ true)) }
        ensures fewer { IfOk result (λ found.
            slots_to_come self.new + length (found_next (slot_if_any found)) ≤ slots_to_come self.old) }
        ensures well { OnOk result (S.has_failed source.new ≡ false) }
        // Or the record behind them shows a fault.
        ensures fault { IfErr result (λ fault. (slots : List ListedSlot) (start : Option (List ℕ))
            → HasRead self.old slots start (S.left source.old)
            → IsReadUpToFault self.old.recording (bare_slots slots) (lines_of slots) fault start (S.left source.new)) }
        ensures cut { IfErr result (λ fault. is_of_end fault.fault ≡ true → IsAtEnd (S.left source.new)) }
        ensures device { IfErr result (λ fault. S.has_failed source.new ≡ is_device_fault fault.fault) }
        ensures same_recording { self.new.recording ≡ self.old.recording }
    {
        if self.is_over {
            return Ok(NextSlot::End);
        }
        match read_recording(source, self.recording, self.view.slots()) {
            Ok(NextSlot::Slot(slot)) => {
                self.octet += record_octets(self.recording, &slot);
                Ok(NextSlot::Slot(list_slot(&mut self.view, slot)))
            }
            Ok(NextSlot::End) => {
                self.is_over = true;
                Ok(NextSlot::End)
            }
            Err(fault) => Err(self.fault_line(fault)),
        }
    }

    /// Reads past the slots in front, as many as this or as there are.
    pub(crate) fn pass<S: Source>(&mut self, source: &mut S, front: u64) -> Result<(), FaultLine>
        requires source { S.has_failed source.old ≡ false }
        requires begun { self.old.is_over ≡ false }
        requires none { HasRead self.old [] (S.left source.old) (S.left source.old) }
        ensures read { OnOk result ((slots : List ListedSlot) × (length slots ≤ front)
            × (self.new.is_over ≡ false → length slots ≡ front)
            × HasRead self.new slots (S.left source.old) (S.left source.new)) }
        ensures well { OnOk result (S.has_failed source.new ≡ false) }
        ensures fault { IfErr result (λ fault. (slots : List ListedSlot) × (length slots ≤ front)
            × IsReadUpToFault self.old.recording (bare_slots slots) (lines_of slots) fault
            (S.left source.old) (S.left source.new)) }
        ensures cut { IfErr result (λ fault. is_of_end fault.fault ≡ true → IsAtEnd (S.left source.new)) }
        ensures device { IfErr result (λ fault. S.has_failed source.new ≡ is_device_fault fault.fault) }
        ensures same_recording { self.new.recording ≡ self.old.recording }
    {
        while !self.is_over && u64::from(self.view.slots()) < front {
            self.next(source)?;
        }
        Ok(())
    }
}
