//! Laws of what is sent of a script, as the contracts of functions that do nothing.
ghost use Rattle.std.specs.Prelude.{◌≡◌, ℕ, ◌<◌, List, Option};
ghost use Rattle.dmr_hearing.specs.Damage.{IsSentSlot, IsRecordedAs};
ghost use Rattle.dmr_hearing.specs.Slots.{SentSlot};
ghost use Rattle.dmr_making.specs.Made.{IsMade};
ghost use Rattle.dmr_making.specs.Seen.{AreSeenAs};
ghost use Rattle.dmr_making.specs.Senders.{IsSendable};
ghost use Rattle.dmr_making.specs.Sends.{Transmitted, SendsSaid};
ghost use Rattle.dmr_script.specs.Fits.{FitsTransmission};
ghost use Rattle.dmr_script.specs.declared.packet.PacketTry.{PacketTry};
ghost use Rattle.dmr_script.specs.declared.statement.Transmission.{Transmission};

/// What goes out for a slot that a channel of the colour code may send is a recording of it, with no damage.
pub fn made_is_recorded()
    ensures law { (colour frame : ℕ) (slot : SentSlot) (made : Option (List ℕ)) → IsSentSlot colour slot
        → IsMade colour frame slot made
        → IsRecordedAs colour slot made }
{}

/// The slots of a transmission of a script are those of the transmission of a channel that it is, as far as that says.
pub fn transmissions_are_sent()
    ensures law { (colour : ℕ) (last : Option PacketTry) (said : Transmission) (sent : Transmitted) → IsSendable last said
        → SendsSaid colour last said sent → AreSeenAs colour sent }
{}

/// A transmission of a script that fits its fields, and that may be sent, sends something.
pub fn transmissions_send_something()
    ensures law { (colour : ℕ) (last : Option PacketTry) (said : Transmission) → FitsTransmission said → IsSendable last said
        → (sent : Transmitted) × SendsSaid colour last said sent }
{}
