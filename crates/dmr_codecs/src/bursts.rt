//! The parts of a burst of 33 octets, and of the common announcement channel before it.
ghost use Rattle.std.specs.Prelude.{◌≡◌, ◌%◌, ◌^◌, ◌<◌, ◌≤◌, true, false};
ghost use Rattle.dmr_bits.specs.Bits.{bits_of, bits_of_octets, number_of};
ghost use Rattle.dmr_burst.specs.Cach.{IsCach};
ghost use Rattle.dmr_burst.specs.Emb.{HasEmb};
ghost use Rattle.dmr_burst.specs.Layout.{embedded_field};
ghost use Rattle.dmr_burst.specs.SlotType.{HasSlotType};
ghost use Rattle.dmr_burst.specs.Sync.{HasSync};
ghost use Rattle.dmr_burst.specs.declared.emb.Emb.{Emb};
ghost use Rattle.dmr_burst.specs.declared.slot_type.SlotType.{SlotType};
ghost use Rattle.dmr_burst.specs.declared.sync.Sync.{Sync};
ghost use Rattle.dmr_codecs.specs.Told.{emb_told, slot_type_told, sender_told, sync_told};

use crate::numbers::to_bits;
use crate::values::{BurstEmb, BurstSlotType, BurstSync};
use dmr_burst::{Side, cach, read_emb, read_embedded, read_slot_type, read_sync};

/// The number of a side.
pub(crate) fn number_of_side(side: Side) -> u8
    ensures told { sender_told result ≡ side }
    ensures number { result ≤ 1 }
{
    match side {
        Side::Bs => 0,
        Side::Ms => 1,
    }
}

/// The sync whose word is within three bits of the centre of a burst; false where there is none, and then nothing is written.
/// ETSI TS 102 361-1, clause 9.1.1.
#[unsafe(no_mangle)]
pub extern "C" fn dmr_read_sync(burst: &[u8; 33], sync: &mut BurstSync) -> bool
    ensures within { result ≡ true → HasSync (sync_told sync.new) (bits_of_octets burst.now) }
    ensures only { (one : Sync) → HasSync one (bits_of_octets burst.now) → (result ≡ true) × (sync_told sync.new ≡ one) }
    ensures side { result ≡ true → sync.new.side ≤ 1 }
    ensures unwritten { result ≡ false → sync.new ≡ sync.old }
{
    match read_sync(burst) {
        Some(found) => {
            *sync = BurstSync {
                side: number_of_side(found.side),
                voice: found.voice,
            };
            true
        }
        None => false,
    }
}

/// The slot type of a data burst, at most three wrong bits undone; false where there is none, and then nothing is written.
/// ETSI TS 102 361-1, clause 9.1.3.
#[unsafe(no_mangle)]
pub extern "C" fn dmr_read_slot_type(burst: &[u8; 33], slot_type: &mut BurstSlotType) -> bool
    ensures within { result ≡ true → HasSlotType (slot_type_told slot_type.new) (bits_of_octets burst.now) }
    ensures only { (one : SlotType) → HasSlotType one (bits_of_octets burst.now)
        → (result ≡ true) × (slot_type_told slot_type.new ≡ one) }
    ensures unwritten { result ≡ false → slot_type.new ≡ slot_type.old }
{
    match read_slot_type(burst) {
        Some(found) => {
            *slot_type = BurstSlotType {
                colour: found.colour,
                kind: found.kind,
            };
            true
        }
        None => false,
    }
}

/// The embedded signalling of a voice burst, at most two wrong bits undone; false where there is none, and then nothing is written.
/// ETSI TS 102 361-1, clause 9.1.2.
#[unsafe(no_mangle)]
pub extern "C" fn dmr_read_emb(burst: &[u8; 33], emb: &mut BurstEmb) -> bool
    ensures within { result ≡ true → HasEmb (emb_told emb.new) (bits_of_octets burst.now) }
    ensures only { (one : Emb) → HasEmb one (bits_of_octets burst.now) → (result ≡ true) × (emb_told emb.new ≡ one) }
    ensures unwritten { result ≡ false → emb.new ≡ emb.old }
{
    match read_emb(burst) {
        Some(found) => {
            *emb = BurstEmb {
                colour: found.colour,
                pi: found.pi,
                lcss: found.lcss,
            };
            true
        }
        None => false,
    }
}

/// The 32 bits of the embedded field of a voice burst, as received. ETSI TS 102 361-1, clause 7.1.3.
#[unsafe(no_mangle)]
pub extern "C" fn dmr_read_embedded(burst: &[u8; 33]) -> u32
    ensures value { result ≡ number_of (embedded_field (bits_of_octets burst.now)) }
{
    read_embedded(burst)
}

/// The three octets that stand before a downlink burst, of AT, TC, the 2 lowest bits of LCSS and the 17 lowest of a fragment of the
/// Short LC. ETSI TS 102 361-1, clause 9.1.4 and annex B.4.1.
#[unsafe(no_mangle)]
pub extern "C" fn dmr_cach(at: bool, tc: bool, lcss: u8, fragment: u32, octets: &mut [u8; 3])
    ensures fields { IsCach at tc (lcss % 4) (bits_of 17 fragment) (bits_of_octets octets.new) }
{
    *octets = cach(at, tc, lcss % 4, &to_bits(fragment));
}
