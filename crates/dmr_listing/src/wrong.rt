//! How many bits of a burst are wrong.
ghost use Rattle.std.specs.Prelude.{◌≡◌};
ghost use Rattle.dmr_bits.specs.Bits.{bits_of_octets};
ghost use Rattle.dmr_burst.specs.Emb.{HasEmb};
ghost use Rattle.dmr_burst.specs.Layout.{emb_field, slot_type_field, sync_field};
ghost use Rattle.dmr_burst.specs.SlotType.{HasSlotType};
ghost use Rattle.dmr_burst.specs.Sync.{sync_word};
ghost use Rattle.dmr_reading.specs.Reading.{IsReadAs};
ghost use Rattle.dmr_listing.specs.Wrong.{IsWrong, IsWrongIn, IsWrongOfEmb, IsWrongOfInformation, IsWrongOfSlotType};
ghost use Rattle.dmr_listing.specs.Wrong.{data_sync, wrong_of_sync};

use dmr_bits::Bits;
use dmr_bptc::bptc_encode;
use dmr_burst::{Burst, Emb, Side, SlotType, Sync, encode_burst, read_info};
use dmr_codes::{BlockCode, Golay20, Residue16};
use dmr_reading::{Information, Reading};
use std::fmt;

/// How many bits of a burst are wrong, field by field: how far what came is from the word that it was read as. It is 0 of what a
/// burst doesn't have, and of what wasn't read.
#[derive(Clone, Copy, Drop)]
pub struct Wrong {
    /// Of the 48 bits of the sync.
    pub sync: usize,
    /// Of the 20 bits of the slot type.
    pub slot_type: usize,
    /// Of the 16 bits of the embedded signalling.
    pub emb: usize,
    /// Of the 195 bits of the information that the product code covers.
    pub information: usize,
}

/// No bit is wrong.
const NONE: Wrong = Wrong {
    sync: 0,
    slot_type: 0,
    emb: 0,
    information: 0,
};

/// The centre of a burst.
fn sync_bits(burst: &[u8; 33]) -> Bits<48>
    ensures value { result ≡ sync_field (bits_of_octets burst.now) }
{
    Bits::<264>::from_octets(burst).part(108, 156)
}

/// The slot type of a burst, on both sides of its centre.
fn slot_type_bits(burst: &[u8; 33]) -> Bits<20>
    ensures value { result ≡ slot_type_field (bits_of_octets burst.now) }
{
    let bits = Bits::<264>::from_octets(burst);
    let mut field = Bits::<20>::zero();
    field.put_part(0, &bits, 98, 108);
    field.put_part(10, &bits, 156, 166);
    field
}

/// The embedded signalling of a burst, on both sides of its embedded field.
fn emb_bits(burst: &[u8; 33]) -> Bits<16>
    ensures value { result ≡ emb_field (bits_of_octets burst.now) }
{
    let bits = Bits::<264>::from_octets(burst);
    let mut field = Bits::<16>::zero();
    field.put_part(0, &bits, 108, 116);
    field.put_part(8, &bits, 148, 156);
    field
}

/// A burst with this sync and nothing else in it.
fn bare_burst(sync: Sync) -> [u8; 33]
    ensures sync { sync_field (bits_of_octets result) ≡ sync_word sync.side sync.voice }
{
    let burst = match sync.voice {
        true => Burst::VoiceSync {
            vocoder: Bits::zero(),
        },
        false => Burst::Data {
            colour: 0,
            kind: 0,
            info: Bits::zero(),
        },
    };
    encode_burst(&burst, sync.side)
}

/// How far the centre of a burst is from the word of a sync.
fn wrong_of_sync(sync: Sync, burst: &[u8; 33]) -> usize
    ensures value { result ≡ wrong_of_sync sync (bits_of_octets burst.now) }
{
    sync_bits(&bare_burst(sync)).distance(&sync_bits(burst))
}

/// How far the slot type of a burst is from the word that it was read as.
fn wrong_of_slot_type(slot_type: SlotType, burst: &[u8; 33]) -> usize
    requires has { HasSlotType slot_type (bits_of_octets burst.now) }
    ensures wrong { IsWrongOfSlotType slot_type (bits_of_octets burst.now) result }
{
    let received = slot_type_bits(burst);
    match Golay20::decode(&received) {
        Some(word) => word.distance(&received),
        None => 0,
    }
}

/// How far the embedded signalling of a burst is from the word that it was read as.
fn wrong_of_emb(emb: Emb, burst: &[u8; 33]) -> usize
    requires has { HasEmb emb (bits_of_octets burst.now) }
    ensures wrong { IsWrongOfEmb emb (bits_of_octets burst.now) result }
{
    let received = emb_bits(burst);
    match Residue16::decode(&received) {
        Some(word) => word.distance(&received),
        None => 0,
    }
}

/// How far the information of a burst is from the written form of what it was read as.
fn wrong_of_message(message: &Bits<96>, burst: &[u8; 33]) -> usize
    ensures wrong { IsWrongOfInformation message.now (bits_of_octets burst.now) result }
{
    let written: Bits<195> = bptc_encode(message).part(1, 196);
    written.distance(&read_info(burst).part(1, 196))
}

/// How far the information of a burst is from the written form of what it was read as, where it was.
fn wrong_of_information(information: Information, burst: &[u8; 33]) -> usize
    ensures wrong { IsWrongIn information (bits_of_octets burst.now) result }
{
    match information {
        Information::Coded(Some(message)) => wrong_of_message(&message, burst),
        Information::Coded(None) | Information::AsReceived => 0,
    }
}

/// A data sync of a side.
fn data_sync(side: Side) -> Sync
    ensures value { result ≡ data_sync side }
{
    Sync { side, voice: false }
}

/// How many bits of a burst are wrong that was read so.
pub(crate) fn wrong_of(reading: &Reading, burst: &[u8; 33]) -> Wrong
    requires read { IsReadAs (bits_of_octets burst.now) reading.now }
    ensures wrong { IsWrong (bits_of_octets burst.now) reading.now result }
{
    match *reading {
        Reading::Data(side, slot_type, information) => Wrong {
            sync: wrong_of_sync(data_sync(side), burst),
            slot_type: wrong_of_slot_type(slot_type, burst),
            information: wrong_of_information(information, burst),
            ..NONE
        },
        Reading::Untyped(side) => Wrong {
            sync: wrong_of_sync(data_sync(side), burst),
            ..NONE
        },
        Reading::VoiceSync(side) => Wrong {
            sync: wrong_of_sync(Sync { side, voice: true }, burst),
            ..NONE
        },
        Reading::Voice(emb) => Wrong {
            emb: wrong_of_emb(emb, burst),
            ..NONE
        },
        Reading::Unreadable => NONE,
    }
}

impl fmt::Display for Wrong {
    /// The parts that are wrong in brackets, and nothing where none is.
    fn fmt<W: fmt::Write>(&self, f: &mut fmt::Formatter<W>) -> fmt::Result {
        let mut before = "  [wrong: ";
        let mut end = "";
        for (name, wrong) in [
            ("sync", self.sync),
            ("slot type", self.slot_type),
            ("EMB", self.emb),
            ("information", self.information),
        ] {
            if wrong > 0 {
                write!(f, "{before}{name} {wrong}")?;
                before = ", ";
                end = "]";
            }
        }
        write!(f, "{end}")
    }
}
