//! The streams of both slots.
ghost use Rattle.std.specs.Prelude.{◌≡◌, ◌+◌, ◌-◌, ◌<◌, ◌≤◌, ◌^◌, IfSome};
ghost use Rattle.dmr_dmrd_export.specs.Streams as spec;

use crate::burst::RepeatedBurst;
use crate::packet::BurstPacket;
use crate::stream::SlotStream;
use dmr_link::FullLc;
use dmr_recording::Place;
use std::mem;

/// What is kept of both slots of a downlink. Slots come in the order of the file: slot 1 and slot 2 of the first frame, and so on.
#[derive(Drop)]
pub(crate) struct BothStreams {
    /// How many slots came.
    pub(crate) slots: u32,
    /// The slot of a frame whose turn is next.
    pub(crate) next: SlotStream,
    /// The other one.
    pub(crate) other: SlotStream,
    /// How many streams have a name.
    pub(crate) names: u32,
}

impl BothStreams {
    /// Nothing came yet.
    pub(crate) fn new() -> BothStreams
        ensures value { result ≡ spec.no_streams }
    {
        BothStreams {
            slots: 0,
            next: SlotStream::new(),
            other: SlotStream::new(),
            names: 0,
        }
    }

    /// Goes on to the next slot.
    fn turn(&mut self)
        requires room { self.old.slots < 2 ^ 32 - 1 }
        ensures turn { self.new ≡ record {
          slots = self.old.slots + 1;
          next = self.old.other;
          other = self.old.next;
          names = self.old.names;
        } }
    {
        self.slots += 1;
        mem::swap(&mut self.next, &mut self.other);
    }

    /// Takes the next slot: what is repeated in it, and what the four frames behind it carry.
    pub(crate) fn take(
        &mut self,
        burst: &Option<RepeatedBurst>,
        carried: Option<FullLc>,
    ) -> Option<BurstPacket>
        requires slots { self.old.slots < 2097164 }
        requires names { self.old.names ≤ self.old.slots }
        ensures streamed { spec.IsSlotStreamed self.old burst.now carried result self.new }
        ensures slots { self.new.slots ≡ self.old.slots + 1 }
        ensures names { self.new.names ≤ self.new.slots }
        ensures frame { IfSome result (λ packet. packet.place.frame < 1048582) }
        ensures slot { IfSome result (λ packet. packet.place.slot ≤ 2) }
    {
        let place = Place::of_slot(self.slots);
        let packet = self.next.take(place, &mut self.names, burst, carried);
        self.turn();
        packet
    }
}
