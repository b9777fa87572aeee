//! What a burst is read as.
ghost use Rattle.std.specs.Prelude.{◌≡◌, false};
ghost use Rattle.dmr_bits.specs.Bits.{bits_of_octets};
ghost use Rattle.dmr_burst.specs.Sync.{HasSync};
ghost use Rattle.dmr_reading.specs.Reading.{IsInformation, IsReadAs, named_colour, IsWithoutSync};

use dmr_bits::Bits;
use dmr_bptc::bptc_decode;
use dmr_burst::{Emb, Side, SlotType, data_type, read_emb, read_info, read_slot_type, read_sync};
use std::fmt;

/// What the 196 bits of information of a data burst are.
#[derive(Clone, Copy, Debug, Drop, PartialEq, Eq)]
pub enum Information {
    /// A word of the block product turbo code: the 96 bits that it holds, or none where it is too damaged.
    Coded(Option<Bits<96>>),
    /// Bits that are in another code or in none (rate 3/4 and rate 1 data), and are not read here.
    AsReceived,
}

/// What a burst is read as.
#[derive(Clone, Copy, Debug, Drop, PartialEq, Eq)]
pub enum Reading {
    /// A data burst.
    Data(Side, SlotType, Information),
    /// A data burst whose slot type is too damaged.
    Untyped(Side),
    /// The voice burst that begins a superframe.
    VoiceSync(Side),
    /// Any other voice burst, which has an EMB in place of a sync.
    Voice(Emb),
    /// None of these, or one that is too damaged.
    Unreadable,
}

impl Reading {
    /// The colour code that the slot type or the EMB names, where one of them was read.
    pub fn colour_code(&self) -> Option<u8>
        ensures value { result ≡ named_colour self.now }
    {
        match *self {
            Reading::Data(_, SlotType { colour, .. }, _) => Some(colour),
            Reading::Voice(Emb { colour, .. }) => Some(colour),
            Reading::Untyped(_) | Reading::VoiceSync(_) | Reading::Unreadable => None,
        }
    }
}

/// What the information of a data burst of this type is.
fn information_of(kind: u8, burst: &[u8; 33]) -> Information
    ensures read { IsInformation kind (bits_of_octets burst.now) result }
{
    match kind {
        data_type::RATE_THREE_QUARTERS_DATA | data_type::RATE_ONE_DATA => Information::AsReceived,
        _ => Information::Coded(bptc_decode(&read_info(burst))),
    }
}

/// What a burst with the data sync of a side is read as.
fn read_data(side: Side, burst: &[u8; 33]) -> Reading
    requires sync { HasSync (record { side = side; voice = false }) (bits_of_octets burst.now) }
    ensures read { IsReadAs (bits_of_octets burst.now) result }
{
    match read_slot_type(burst) {
        Some(slot_type) => { Reading::Data(side, slot_type, information_of(slot_type.kind, burst)) }
        None => Reading::Untyped(side),
    }
}

/// What a burst with no sync is read as.
fn read_voice(burst: &[u8; 33]) -> Reading
    requires sync { IsWithoutSync (bits_of_octets burst.now) }
    ensures read { IsReadAs (bits_of_octets burst.now) result }
{
    match read_emb(burst) {
        Some(emb) => Reading::Voice(emb),
        None => Reading::Unreadable,
    }
}

/// What a burst is read as. Its sync goes first: embedded signalling is looked for where no sync word is near.
pub fn read_burst(burst: &[u8; 33]) -> Reading
    ensures read { IsReadAs (bits_of_octets burst.now) result }
{
    match read_sync(burst) {
        Some(sync) if sync.voice => Reading::VoiceSync(sync.side),
        Some(sync) => read_data(sync.side, burst),
        None => read_voice(burst),
    }
}

/// The two letters of a side.
fn letters_of(side: Side) -> &'static str {
    match side {
        Side::Bs => "BS",
        Side::Ms => "MS",
    }
}

impl fmt::Display for Reading {
    fn fmt<W: fmt::Write>(&self, f: &mut fmt::Formatter<W>) -> fmt::Result {
        match self {
            Reading::Data(side, slot_type, information) => {
                let side = letters_of(*side);
                let SlotType { colour, kind } = *slot_type;
                write!(
                    f,
                    "data {side}, colour {colour}, type {kind}, information {information}"
                )
            }
            Reading::Untyped(side) => {
                let side = letters_of(*side);
                write!(f, "data {side}, slot type unreadable")
            }
            Reading::VoiceSync(side) => {
                let side = letters_of(*side);
                write!(f, "voice sync {side}")
            }
            Reading::Voice(emb) => {
                let Emb { colour, pi, lcss } = *emb;
                let pi = u8::from(pi);
                write!(f, "voice, colour {colour}, PI {pi}, LCSS {lcss}")
            }
            Reading::Unreadable => write!(f, "unreadable"),
        }
    }
}

impl fmt::Display for Information {
    fn fmt<W: fmt::Write>(&self, f: &mut fmt::Formatter<W>) -> fmt::Result {
        match self {
            Information::Coded(Some(message)) => {
                for octet in message.octets::<12>() {
                    write!(f, "{octet:02X}")?;
                }
                Ok(())
            }
            Information::Coded(None) => write!(f, "unreadable"),
            Information::AsReceived => write!(f, "as received"),
        }
    }
}
