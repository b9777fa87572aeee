//! Laws of what is sent and what it means, as the contracts of functions that do nothing.
ghost use Rattle.std.specs.Prelude.{◌≡◌, ℕ, List, Option};
ghost use Rattle.dmr_burst.specs.declared.burst.Burst.{Burst};
ghost use Rattle.dmr_record.specs.Outgoing.{Sending};
ghost use Rattle.dmr_record.specs.Received.{Receipt};
ghost use Rattle.dmr_record.specs.Uplink.{UplinkSlots};
ghost use Rattle.dmr_record.specs.Downlink.{Sent};
ghost use Rattle.dmr_slot.specs.declared.line.SlotOut.{SlotOut};
ghost use Rattle.dmr_voice.specs.CallMeaning.{Cell};
ghost use Rattle.dmr_station.specs.Sent.{DownlinkSlots, SlotBursts};
ghost use Rattle.dmr_station.specs.Clean.{AreCleanSlots, IsCleanDownlink, IsEncodedAs, bursts_in};
ghost use Rattle.dmr_station.specs.DownlinkRules.{IsDownlinkOf, Makes};
ghost use Rattle.dmr_station.specs.GatewayMeaning.{IsGatewayOf};
ghost use Rattle.dmr_station.specs.StationRules.{Settings, Counts};
ghost use Rattle.dmr_station.specs.DownlinkMeaning.{IsDownlinkOfWhatIsMeant, SendsFrontOfWhatIsMeant, SendsWhatIsMeant};
ghost use Rattle.dmr_station.specs.Sent.{AreSentAs};
ghost use Rattle.dmr_station.specs.Station.{SendsByTheRules, AlwaysSends};

/// Whatever frames a new station takes, one after another, and whatever datagrams it is offered before each: it gives the exact
/// encoding of what the rules make of them by looking back, all clean. It receives what is completed for the gateway, and counts
/// it.
pub fn sends_by_the_rules()
    ensures law { SendsByTheRules }
{}

/// Whatever frames there are, and whatever datagrams of octets are offered in each, something is sent for them.
pub fn always_sends()
    ensures law { AlwaysSends }
{}

/// Of any well-formed transmissions in both slots, and of any recording of them that is damaged within the limits, the rules make
/// what they mean.
pub fn sends_what_is_meant()
    ensures law { SendsWhatIsMeant }
{}

/// As long as such a recording lasts, the rules make a front of what its transmissions mean.
pub fn sends_front_of_what_is_meant()
    ensures law { SendsFrontOfWhatIsMeant }
{}

/// What the lines of both slots and the gateway give goes out in one way.
pub fn one_downlink()
    ensures law { (s : Settings) (first second : List SlotOut) (gates : List SlotBursts)
        (a b : List DownlinkSlots)
        → IsDownlinkOf s first second gates a → IsDownlinkOf s first second gates b → a ≡ b }
{}

/// The gateway makes one thing of what the lines of both slots give and of the datagrams that are offered: its bursts, the records
/// of what it receives, and its counts.
pub fn one_gateway()
    ensures law { (s : Settings) (offers : List (List Sending)) (first second : List SlotOut)
        (gates other_gates : List SlotBursts) (receipts other_receipts : List Receipt) (counts other_counts : Counts)
        → IsGatewayOf s offers first second gates receipts counts
        → IsGatewayOf s offers first second other_gates other_receipts other_counts
        → (gates ≡ other_gates) × (receipts ≡ other_receipts) × (counts ≡ other_counts) }
{}

/// What was sent in both slots goes out in one way, with the datagrams that are offered: each slot of the downlink, the records of
/// what is received, and the counts are pinned.
pub fn one_downlink_of_what_is_meant()
    ensures law { (s : Settings) (first second : List Cell) (frames : List UplinkSlots) (offers : List (List Sending))
        (sending other_sending : List DownlinkSlots) (receipts other_receipts : List Receipt)
        (counts other_counts : Counts) → IsDownlinkOfWhatIsMeant s first second frames offers sending receipts counts
        → IsDownlinkOfWhatIsMeant s first second frames offers other_sending other_receipts other_counts
        → (sending ≡ other_sending) × (receipts ≡ other_receipts) × (counts ≡ other_counts) }
{}

/// What the rules make of frames is one thing, whatever these hold, with the datagrams that are offered: each slot of the downlink,
/// the records of what is received, and the counts are pinned.
pub fn one_downlink_by_the_rules()
    ensures law { (s : Settings) (offers : List (List Sending)) (frames : List UplinkSlots)
        (sending other_sending : List DownlinkSlots) (receipts other_receipts : List Receipt)
        (counts other_counts : Counts) → Makes s offers frames sending receipts counts
        → Makes s offers frames other_sending other_receipts other_counts
        → (sending ≡ other_sending) × (receipts ≡ other_receipts) × (counts ≡ other_counts) }
{}

/// What slots of the downlink send has one encoding.
pub fn one_encoding()
    ensures law { (place : ℕ) (slots : DownlinkSlots) (a b : List Sent)
        → AreSentAs place slots a → AreSentAs place slots b → a ≡ b }
{}

/// The octets of a slot are the encoding of one burst, so that what is clean in one reading is clean in all.
pub fn one_burst_in_a_slot()
    ensures law { (a b : Option Burst) (sent : Sent) → IsEncodedAs a sent → IsEncodedAs b sent → a ≡ b }
{}

/// The encoding of clean bursts may be transmitted.
pub fn sent_bursts_are_clean()
    ensures law { (colour place : ℕ) (slots : DownlinkSlots) (sent : List Sent)
        → AreCleanSlots colour (bursts_in slots) → AreSentAs place slots sent → IsCleanDownlink colour sent }
{}
