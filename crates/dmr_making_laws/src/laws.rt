//! Laws of recordings that are made of scripts, as the contracts of functions that do nothing.
ghost use Rattle.std.specs.Prelude.{◌≡◌, ℕ, Contains, List, Option, Some, length};
ghost use Rattle.dmr_bits.specs.Bits.{bits_of_octets};
ghost use Rattle.dmr_burst.specs.declared.emb.Emb.{Emb};
ghost use Rattle.dmr_hearing.specs.Damage.{HasNoMobileSync};
ghost use Rattle.dmr_hearing.specs.Slots.{Voice};
ghost use Rattle.dmr_making.specs.Made.{IsMade};
ghost use Rattle.dmr_making.specs.Senders.{IsSendable};
ghost use Rattle.dmr_making.specs.Sends.{SendsCall, SendsSaid, Transmitted};
ghost use Rattle.dmr_making_laws.specs.Refused.{FewSilencesAreNoPause, FrontsAreWellFormed};
ghost use Rattle.dmr_making_laws.specs.Scripts.{ListsAreWellFormed, PlansHaveLists};
ghost use Rattle.dmr_making_laws.specs.Scripts.{RecordingsAreOfTheirLists, RunsWriteWhatScriptsMean};
ghost use Rattle.dmr_planning.specs.Counting.{slot_count};
ghost use Rattle.dmr_script.specs.declared.call.Call.{Call};
ghost use Rattle.dmr_script.specs.declared.packet.PacketTry.{PacketTry};
ghost use Rattle.dmr_script.specs.declared.statement.Transmission.{Transmission};

/// What is sent of a transmission has as many slots as are planned for it.
pub fn transmissions_have_their_slots()
    ensures law { (colour : ℕ) (last : Option PacketTry) (said : Transmission) (sent : Transmitted) → IsSendable last said
        → SendsSaid colour last said sent → length sent.slots ≡ slot_count said last }
{}

/// No voice burst with an EMB that a call of a script sends reads as a sync of a mobile station, with whatever colour code and in
/// whatever frame.
pub fn voice_bursts_are_far_from_syncs()
    ensures law { (colour frame : ℕ) (call : Call) (sent : Transmitted) (emb : Emb) (embedded : ℕ) (octets : List ℕ)
        → SendsCall colour call sent → Contains sent.slots (Voice emb embedded)
        → IsMade colour frame (Voice emb embedded) (Some octets) → HasNoMobileSync (bits_of_octets octets) }
{}

/// Each plan of a script has lists: there are slots that each of its transmissions sends.
pub fn plans_have_lists()
    ensures law { PlansHaveLists }
{}

/// The transmissions of each slot of a script, each with the silences behind it, are well formed as a whole.
pub fn lists_are_well_formed()
    ensures law { ListsAreWellFormed }
{}

/// The transmissions of the statements in front of any line of a script are well formed as a whole, too. So they are in front of a
/// line that is refused.
pub fn fronts_are_well_formed()
    ensures law { FrontsAreWellFormed }
{}

/// Where a script is refused for too few silences between two transmissions, no list is well formed in which both stand so.
pub fn few_silences_are_no_pause()
    ensures law { FewSilencesAreNoPause }
{}

/// What `write_uplink` writes of the plan of a script into an empty file is a recording of the transmissions of both slots.
pub fn recordings_are_of_their_lists()
    ensures law { RecordingsAreOfTheirLists }
{}

/// Over what is written of a script, a run that ends well wrote the exact encoding of what the script means, and of what the
/// gateway sends. The script has lists, and it is so whichever they are.
pub fn runs_write_what_scripts_mean()
    ensures law { RunsWriteWhatScriptsMean }
{}
