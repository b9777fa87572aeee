//! The fragments of the message that is announced, one in the CACH of each record.
ghost use Rattle.std.specs.Prelude.{◌≡◌, ◌<◌, ◌%◌, ◌==◌, ℕ, Bool, List, All};
ghost use Rattle.dmr_bits.specs.Bits.{bits_of_octets};
ghost use Rattle.dmr_burst.specs.Cach.{IsCach};
ghost use Rattle.dmr_station.specs.Sent.{AreCachs, CarryMessage, FitOctets, fragment_lcss};
ghost use Rattle.dmr_station.specs.declared.announcing.Message.{Message};

use crate::announcing::Message;
use dmr_bits::Bits;
use dmr_burst::{cach, lcss};
use dmr_embedded::short_lc;
use std::marker::Model;

/// A message and the CACHs with its four fragments, which are worked out once for as long as the message stays.
#[derive(Drop)]
pub struct Fragments {
    message: Message,
    /// Those of records with no repeated burst.
    free: [[u8; 3]; 4],
    /// Those of records with one.
    busy: [[u8; 3]; 4],
}

// Clauses see the message.
impl Model for Fragments {
    ghost use Rattle.std.specs.Prelude.{All, false, true};
    ghost use Rattle.dmr_station.specs.Sent.{CarryMessage, FitOctets};
    ghost use Rattle.dmr_station.specs.declared.announcing.Message.{Message};

    ghost Value = { Message };

    ghost view = { λ f. f.message };

    ghost invariant = { λ f. CarryMessage false f.message f.free × CarryMessage true f.message f.busy
        × All FitOctets f.free × All FitOctets f.busy };
}

impl Fragments {
    ghost use Rattle.dmr_station.specs.Announced.{IsFitMessage};
    ghost use Rattle.dmr_station.specs.Sent.{IsCachOf};

    /// Those of the null message.
    pub(crate) fn new() -> Self
        ensures message { result ≡ record { slco = 0; body = 0 } }
    {
        Fragments::of(Message { slco: 0, body: 0 })
    }

    /// Those of a message.
    fn of(message: Message) -> Self
        requires message { IsFitMessage message }
        ensures message { result ≡ message }
    {
        let four = short_lc(message.slco, message.body);
        Fragments {
            message,
            free: cachs(false, &four),
            busy: cachs(true, &four),
        }
    }

    /// Has those of a message from now on.
    pub(crate) fn take(&mut self, message: Message)
        requires message { IsFitMessage message }
        ensures message { self.new ≡ message }
    {
        if self.message != message {
            let four = short_lc(message.slco, message.body);
            *self = Fragments {
                message,
                free: refilled(&self.free, &four),
                busy: refilled(&self.busy, &four),
            };
        }
    }

    /// The CACH of a record.
    pub(crate) fn cach(&self, busy: bool, place: u32) -> [u8; 3]
        ensures octets { FitOctets result }
        ensures cach { IsCachOf busy self.now place result }
    {
        if busy {
            self.busy[place as usize % 4]
        } else {
            self.free[place as usize % 4]
        }
    }
}

/// CACHs with other fragments: their TACT bits stay.
fn refilled(cachs: &[[u8; 3]; 4], fragments: &[Bits<17>; 4]) -> [[u8; 3]; 4]
    ensures octets { All FitOctets result }
    ensures cachs { (busy : Bool) (message : Message) → CarryMessage busy message cachs.now → AreCachs busy fragments.now result }
{
    [
        with_fragment(&cachs[0], &fragments[0]),
        with_fragment(&cachs[1], &fragments[1]),
        with_fragment(&cachs[2], &fragments[2]),
        with_fragment(&cachs[3], &fragments[3]),
    ]
}

/// A CACH with another fragment, which has all places but the seven of the TACT.
fn with_fragment(cach: &[u8; 3], fragment: &Bits<17>) -> [u8; 3]
    ensures octets { FitOctets result }
    ensures cach { (at tc : Bool) (lcss : ℕ) (old : List Bool) → IsCach at tc lcss old (bits_of_octets cach.now)
        → IsCach at tc lcss fragment.now (bits_of_octets result) }
{
    let mut bits = Bits::<24>::from_octets(cach);
    bits.put_part(1, fragment, 0, 3);
    bits.put_part(5, fragment, 3, 6);
    bits.put_part(9, fragment, 6, 9);
    bits.put_part(13, fragment, 9, 10);
    bits.put_part(15, fragment, 10, 13);
    bits.put_part(19, fragment, 13, 16);
    bits.put_part(23, fragment, 16, 17);
    bits.octets()
}

/// The CACHs with these fragments.
fn cachs(busy: bool, fragments: &[Bits<17>; 4]) -> [[u8; 3]; 4]
    ensures octets { All FitOctets result }
    ensures cachs { AreCachs busy fragments.now result }
{
    [
        cach_at(busy, 0, &fragments[0]),
        cach_at(busy, 1, &fragments[1]),
        cach_at(busy, 2, &fragments[2]),
        cach_at(busy, 3, &fragments[3]),
    ]
}

/// The CACH of a record at this place, with this fragment.
fn cach_at(busy: bool, place: u32, fragment: &Bits<17>) -> [u8; 3]
    ensures octets { FitOctets result }
    ensures cach { IsCach busy (place % 2 == 1) (fragment_lcss place) fragment.now (bits_of_octets result) }
{
    cach(
        busy,
        place % 2 == 1,
        link_control_start_stop(place),
        fragment,
    )
}

/// Where in its Short LC the fragment of a record stands.
fn link_control_start_stop(place: u32) -> u8
    ensures value { result ≡ fragment_lcss place }
    ensures fits { result < 4 }
{
    match place % 4 {
        0 => lcss::FIRST_FRAGMENT,
        3 => lcss::LAST_FRAGMENT,
        _ => lcss::CONTINUATION_FRAGMENT,
    }
}
