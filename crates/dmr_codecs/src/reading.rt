//! What one burst is read as.
ghost use Rattle.std.specs.Prelude.{◌≡◌, ◌≤◌};
ghost use Rattle.dmr_bits.specs.Bits.{bits_of_octets};
ghost use Rattle.dmr_reading.specs.Reading.{IsReadAs};
ghost use Rattle.dmr_codecs.specs.Told.{cleared, information_told, reading_told};

use crate::bursts::number_of_side;
use crate::values::BurstReading;
use dmr_burst::{Emb, Side, SlotType};
use dmr_reading::{Information, Reading, read_burst};

/// Nothing is read.
const NOTHING: BurstReading = BurstReading {
    side: 0,
    colour: 0,
    kind: 0,
    information: 0,
    pi: false,
    lcss: 0,
    message: [0; 12],
};

/// What a burst is read as: 1 data, 2 data whose slot type is too damaged, 3 voice with a sync word, 4 voice with embedded
/// signalling, and 0 nothing. ETSI TS 102 361-1, clauses 4.2.2 and 9.1.
#[unsafe(no_mangle)]
pub extern "C" fn dmr_read_burst(burst: &[u8; 33], reading: &mut BurstReading) -> u8
    ensures read { IsReadAs (bits_of_octets burst.now) (reading_told result reading.new) }
    ensures zeros { reading.new ≡ cleared result reading.new }
    ensures numbers { (result ≤ 4) × (reading.new.side ≤ 1) × (reading.new.information ≤ 2) }
{
    match read_burst(burst) {
        Reading::Data(side, SlotType { colour, kind }, information) => {
            let (information, message) = match information {
                Information::Coded(Some(message)) => (0, message.octets()),
                Information::Coded(None) => (1, [0; 12]),
                Information::AsReceived => (2, [0; 12]),
            };
            *reading = BurstReading {
                side: number_of_side(side),
                colour,
                kind,
                information,
                message,
                ..NOTHING
            };
            1
        }
        Reading::Untyped(side) => {
            *reading = BurstReading {
                side: number_of_side(side),
                ..NOTHING
            };
            2
        }
        Reading::VoiceSync(side) => {
            *reading = BurstReading {
                side: number_of_side(side),
                ..NOTHING
            };
            3
        }
        Reading::Voice(Emb { colour, pi, lcss }) => {
            *reading = BurstReading {
                colour,
                pi,
                lcss,
                ..NOTHING
            };
            4
        }
        Reading::Unreadable => {
            *reading = NOTHING;
            0
        }
    }
}
