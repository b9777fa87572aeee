//! Laws of where a file has got to, as the contracts of functions that do nothing.
//!
//! A fault of a recording is told where a reader of its slots finds it: at the octet at which the record begins, with the frame and
//! the slot of it.
ghost use Rattle.std.specs.List.{AllByRecursion};
ghost use Rattle.std.specs.Prelude.{◌≡◌, ◌<◌, ◌^◌, ℕ, List, [], ◌∷◌, ◌++◌, length, true};
ghost use Rattle.dmr_record.specs.declared.fault.RecordFault.{RecordFault};
ghost use Rattle.dmr_recording.specs.Recordings.{IsSlotOf, RecordedSlot, spelling};
ghost use Rattle.dmr_recording.specs.declared.recording.Recording.{Recording};
ghost use Rattle.dmr_watch.specs.Reached.{is_told_behind};
ghost use Rattle.dmr_watch.specs.Slots.{fault_behind, fault_told};

/// Behind whole slots, a fault of the end or of the device is told of the slot that comes next. A fault inside a slot is told of
/// that one.
pub fn faults_are_told_at_their_slots()
    ensures behind { (recording : Recording) (magic : List ℕ) (slots : List RecordedSlot) (fault : RecordFault) → length magic ≡ 4
        → AllByRecursion (IsSlotOf recording) slots → length slots < 2 ^ 31 → is_told_behind fault ≡ true
        → fault_told recording magic slots [] fault ≡ fault_behind recording slots fault }
    ensures inside { (recording : Recording) (magic : List ℕ) (slots : List RecordedSlot) (slot : RecordedSlot)
        (tag : ℕ) (front : List ℕ) (next : ℕ) (rest : List ℕ) (fault : RecordFault) → length magic ≡ 4
        → AllByRecursion (IsSlotOf recording) slots → length slots < 2 ^ 31 → IsSlotOf recording slot
        → spelling recording slot ≡ tag ∷ (front ++ next ∷ rest)
        → fault_told recording magic slots (tag ∷ front) fault ≡ fault_behind recording slots fault }
{}
