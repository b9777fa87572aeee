//! Laws of plans, as the contracts of functions that do nothing.
ghost use Rattle.std.specs.Prelude.{ℕ, Bool, List, Option};
ghost use Rattle.dmr_making.specs.Sends.{SendsSaid, Transmitted};
ghost use Rattle.dmr_planning.specs.Pausing.{ArePausedBetween};
ghost use Rattle.dmr_planning.specs.Planning.{ArePlanned, Planned};
ghost use Rattle.dmr_script.specs.Fits.{FitsTransmission};
ghost use Rattle.dmr_script.specs.declared.packet.PacketTry.{PacketTry};
ghost use Rattle.dmr_script.specs.declared.statement.NumberedStatement.{NumberedStatement};
ghost use Rattle.dmr_script.specs.declared.statement.Transmission.{Transmission};
ghost use Rattle.dmr_voice.specs.WellFormed.{IsTransmission};

/// Enough silences stand between the transmissions of each slot: six behind a call that ends in silence, one behind anything else,
/// and none within a row of data bursts.
pub fn transmissions_pause()
    ensures law { (all : List NumberedStatement) (own : ℕ) (taken : Bool) (at : ℕ) (planned : Planned)
        → ArePlanned all own taken at planned
        → ArePausedBetween all own planned.first.placed × ArePausedBetween all own planned.second.placed }
{}

/// What a transmission of a script is in a channel of its colour code is well formed.
pub fn transmissions_are_well_formed()
    ensures law { (colour : ℕ) (last : Option PacketTry) (said : Transmission) (sent : Transmitted) → FitsTransmission said
        → SendsSaid colour last said sent → IsTransmission colour sent.transmission }
{}
