//! Laws of the files, as the contracts of functions that do nothing.
//!
//! A file has one reading: two lists of records with the same octets are the same list. And a reading call has
//! no choice: a text that begins with a record has no fault, and no text has two faults. This leaves `Read`
//! out, which a device has and no text.

ghost use Rattle.std.specs.Prelude.{◌≡◌, ◌≢◌, ℕ, ◌+◌, ◌*◌, ◌%◌, ◌<◌, ◌≤◌, List, ◌++◌, Option, length};
ghost use Rattle.std.specs.List.{AllByRecursion, flat_map};
ghost use Rattle.dmr_record.specs.declared.fault.RecordFault.{RecordFault};
ghost use Rattle.dmr_record.specs.Downlink.{Sent, IsSent, sent_octets, downlink_octets, downlink_file, ShowsDownlinkFault};
ghost use Rattle.dmr_record.specs.Faults.{HasFault};
ghost use Rattle.dmr_record.specs.Head.{head_octets, ShowsHeadFault};
ghost use Rattle.dmr_record.specs.Outgoing.{Sending, IsSending, AreInFrameOrder};
ghost use Rattle.dmr_record.specs.Outgoing.{sending_octets, sendings_octets, outgoing_file, ShowsOutgoingFault};
ghost use Rattle.dmr_record.specs.Received.{Receipt, IsReceipt, receipt_octets, receipts_octets, received_file};
ghost use Rattle.dmr_record.specs.Received.{ReceivedFields, IsReadable, Follows, received_fields, ShowsReceivedFault};
ghost use Rattle.dmr_record.specs.Received as received;
ghost use Rattle.dmr_record.specs.Spelling.{IsPrefixCode};
ghost use Rattle.dmr_record.specs.Uplink.{UplinkSlots, IsFrame, frame_octets, frames_octets, uplink_file, ShowsUplinkFault};
ghost use Rattle.dmr_record.specs.Uplink.{UplinkSlot, IsSilenceOrBurst, slot_octets, ShowsUplinkSlotFault};

/// An uplink file is that of one list of frames.
pub fn uplink_has_one_reading()
    ensures one { (xs ys : List UplinkSlots) → AllByRecursion IsFrame xs → AllByRecursion IsFrame ys
        → uplink_file xs ≡ uplink_file ys → xs ≡ ys }
{}

/// An outgoing file is that of one list of records.
pub fn outgoing_has_one_reading()
    ensures one { (xs ys : List Sending) → AllByRecursion IsSending xs → AllByRecursion IsSending ys
        → outgoing_file xs ≡ outgoing_file ys → xs ≡ ys }
{}

/// A downlink file is that of one list of slots.
pub fn downlink_has_one_reading()
    ensures one { (xs ys : List Sent) → AllByRecursion IsSent xs → AllByRecursion IsSent ys
        → downlink_file xs ≡ downlink_file ys → xs ≡ ys }
{}

/// A received file is that of one list of records.
pub fn received_has_one_reading()
    ensures one { (xs ys : List Receipt) → AllByRecursion IsReceipt xs → AllByRecursion IsReceipt ys
        → received_file xs ≡ received_file ys → xs ≡ ys }
{}

/// A text that begins with a head has no fault of one, and no text has two.
pub fn head_faults()
    ensures none { (magic rest : List ℕ) (e : RecordFault) → length magic ≡ 4
        → HasFault (ShowsHeadFault magic) (head_octets magic ++ rest) e → e ≡ RecordFault.Read }
    ensures one { (magic text : List ℕ) (e f : RecordFault)
        → HasFault (ShowsHeadFault magic) text e → HasFault (ShowsHeadFault magic) text f
        → e ≢ RecordFault.Read → f ≢ RecordFault.Read → e ≡ f }
{}

/// A text that begins with a frame within the limit has no fault of one, and no text has two. So a text of
/// frames, no more than may come, has none.
pub fn uplink_faults()
    ensures none { (limit before : ℕ) (frame : UplinkSlots) (rest : List ℕ) (e : RecordFault)
        → IsFrame frame → before < limit
        → HasFault (ShowsUplinkFault limit before) (frame_octets frame ++ rest) e → e ≡ RecordFault.Read }
    ensures one { (limit before : ℕ) (text : List ℕ) (e f : RecordFault)
        → HasFault (ShowsUplinkFault limit before) text e → HasFault (ShowsUplinkFault limit before) text f
        → e ≢ RecordFault.Read → f ≢ RecordFault.Read → e ≡ f }
    ensures all { (limit before : ℕ) (frames : List UplinkSlots) (e : RecordFault)
        → AllByRecursion IsFrame frames → before + length frames ≤ limit
        → HasFault (ShowsUplinkFault limit before) (frames_octets frames) e → e ≡ RecordFault.Read }
{}

/// A fault of a slot of an uplink file is that of its frame: read slot by slot a file shows the fault that it shows frame by frame.
pub fn uplink_slot_faults()
    ensures frame { (limit before : ℕ) (slots : List UplinkSlot) (part : List ℕ) (e : RecordFault)
        → length slots < 2 → AllByRecursion IsSilenceOrBurst slots → (length slots ≡ 1 → before < limit)
        → ShowsUplinkSlotFault (2 * limit) (2 * before + length slots) e part
        → ShowsUplinkFault limit before e (flat_map slot_octets slots ++ part) }
{}

/// What `uplink_faults` says of frames, of the records of an outgoing file, whose frames don't decrease.
pub fn outgoing_faults()
    ensures none { (limit before last : ℕ) (s : Sending) (rest : List ℕ) (e : RecordFault)
        → IsSending s → before < limit → last ≤ s.frame
        → HasFault (ShowsOutgoingFault limit before last) (sending_octets s ++ rest) e → e ≡ RecordFault.Read }
    ensures one { (limit before last : ℕ) (text : List ℕ) (e f : RecordFault)
        → HasFault (ShowsOutgoingFault limit before last) text e
        → HasFault (ShowsOutgoingFault limit before last) text f
        → e ≢ RecordFault.Read → f ≢ RecordFault.Read → e ≡ f }
    ensures all { (limit before last : ℕ) (sendings : List Sending) (e : RecordFault)
        → AllByRecursion IsSending sendings → AreInFrameOrder last sendings → before + length sendings ≤ limit
        → HasFault (ShowsOutgoingFault limit before last) (sendings_octets sendings) e → e ≡ RecordFault.Read }
{}

/// The same of the slots of a downlink file, which has whole frames.
pub fn downlink_faults()
    ensures none { (limit before : ℕ) (slot : Sent) (rest : List ℕ) (e : RecordFault)
        → IsSent slot → before < limit
        → HasFault (ShowsDownlinkFault limit before) (sent_octets slot ++ rest) e → e ≡ RecordFault.Read }
    ensures one { (limit before : ℕ) (text : List ℕ) (e f : RecordFault)
        → HasFault (ShowsDownlinkFault limit before) text e → HasFault (ShowsDownlinkFault limit before) text f
        → e ≢ RecordFault.Read → f ≢ RecordFault.Read → e ≡ f }
    ensures all { (limit before : ℕ) (slots : List Sent) (e : RecordFault)
        → AllByRecursion IsSent slots → before + length slots ≤ limit → (before + length slots) % 2 ≡ 0
        → HasFault (ShowsDownlinkFault limit before) (downlink_octets slots) e → e ≡ RecordFault.Read }
{}

/// The same of the records of a received file, which follow one another.
pub fn received_faults()
    ensures none { (limit before : ℕ) (last : Option ReceivedFields) (r : Receipt) (rest : List ℕ) (e : RecordFault)
        → IsReadable r → before < limit → Follows last (received_fields r)
        → HasFault (ShowsReceivedFault limit before last) (receipt_octets r ++ rest) e → e ≡ RecordFault.Read }
    ensures one { (limit before : ℕ) (last : Option ReceivedFields) (text : List ℕ) (e f : RecordFault)
        → HasFault (ShowsReceivedFault limit before last) text e
        → HasFault (ShowsReceivedFault limit before last) text f
        → e ≢ RecordFault.Read → f ≢ RecordFault.Read → e ≡ f }
    ensures all { (limit before : ℕ) (last : Option ReceivedFields) (receipts : List Receipt) (e : RecordFault)
        → AllByRecursion IsReadable receipts → received.FollowEachOther last receipts → before + length receipts ≤ limit
        → HasFault (ShowsReceivedFault limit before last) (receipts_octets receipts) e → e ≡ RecordFault.Read }
{}

/// A slot that was written to an uplink file is read back: no other slot's octets begin a text that its own begin.
pub fn uplink_is_read_back()
    ensures back { IsPrefixCode IsSilenceOrBurst slot_octets }
{}

/// A record that was written to an outgoing file is read back: no other record's octets begin a text that its own
/// begin.
pub fn outgoing_is_read_back()
    ensures back { IsPrefixCode IsSending sending_octets }
{}

/// A slot that was written to a downlink file is read back: no other slot's octets begin a text that its own begin.
pub fn downlink_is_read_back()
    ensures back { IsPrefixCode IsSent sent_octets }
{}

/// A record that was written to a received file is read back: no other record's octets begin a text that its own
/// begin.
pub fn received_is_read_back()
    ensures back { IsPrefixCode IsReceipt receipt_octets }
{}
