//! What is kept of a downlink that is exported.
ghost use Rattle.std.specs.Prelude.{◌≡◌, ◌+◌, ◌<◌, ◌≤◌, ◌∷◌, [], List, length, option_to_list, replicate, None};
ghost use Rattle.std.specs.Prelude.{true, false, IfOk, OnOk, OnErr, IfSome};
ghost use Rattle.dmr_dmrd_export.specs.Deciding as spec;
ghost use Rattle.dmr_dmrd_export.specs.declared.packet.BurstPacket as declared;

use crate::burst::{RepeatedBurst, carried_with};
use crate::datagram::write_burst;
use crate::packet::BurstPacket;
use crate::settings::ExportSettings;
use crate::streams::BothStreams;
use crate::waiting::WaitingSlots;
use dmr_record::{RecordFault, Sink};

/// What is kept between two slots: those on which isn't decided yet, and the streams of those before.
#[derive(Drop)]
pub(crate) struct ExportState {
    /// The slots on which isn't decided yet.
    pub(crate) waiting: WaitingSlots,
    /// The streams of both slots.
    pub(crate) streams: BothStreams,
}

impl ExportState {
    /// Nothing came yet.
    pub(crate) fn new() -> ExportState
        ensures value { result ≡ spec.nothing_exported }
    {
        ExportState {
            waiting: WaitingSlots::new(),
            streams: BothStreams::new(),
        }
    }

    /// Takes the next slot, and decides on the one that stands four frames before it, where there is one.
    fn decide(&mut self, newest: Option<RepeatedBurst>) -> Option<BurstPacket>
        requires room { self.old.streams.slots + length self.old.waiting < 2097172 }
        requires names { self.old.streams.names ≤ self.old.streams.slots }
        ensures decides { spec.AreMoreDecided self.old (newest ∷ []) (option_to_list result) self.new }
        ensures room { self.new.streams.slots + length self.new.waiting ≡ self.old.streams.slots + length self.old.waiting + 1 }
        ensures names { self.new.streams.names ≤ self.new.streams.slots }
        ensures frame { IfSome result (λ packet. packet.place.frame < 1048582) }
        ensures slot { IfSome result (λ packet. packet.place.slot ≤ 2) }
    {
        let Some(oldest) = self.waiting.push(newest) else {
            return None;
        };
        self.streams.take(&oldest, carried_with(&newest))
    }

    /// Takes the next slot, writes the packet on which is decided then, and answers how many that are.
    pub(crate) fn take<K: Sink>(
        &mut self,
        settings: &ExportSettings,
        newest: Option<RepeatedBurst>,
        sink: &mut K,
    ) -> Result<u32, RecordFault>
        requires well { K.has_failed sink.old ≡ false }
        requires room { self.old.streams.slots + length self.old.waiting < 2097172 }
        requires names { self.old.streams.names ≤ self.old.streams.slots }
        ensures written { IfOk result (λ count. (more : List declared.BurstPacket) × (count ≡ length more)
            × spec.AreMoreWritten settings.now self.old (newest ∷ []) more self.new (K.held sink.old) (K.held sink.new)) }
        ensures few { IfOk result (λ count. count ≤ 1) }
        ensures room { self.new.streams.slots + length self.new.waiting ≡ self.old.streams.slots + length self.old.waiting + 1 }
        ensures names { self.new.streams.names ≤ self.new.streams.slots }
        ensures well { OnOk result (K.has_failed sink.new ≡ false) }
        ensures torn { OnErr result (spec.AreMoreTorn settings.now self.old (newest ∷ []) (K.held sink.old) (K.held sink.new)) }
        ensures failed { OnErr result (K.has_failed sink.new ≡ true) }
    {
        match self.decide(newest) {
            None => Ok(0),
            Some(packet) => match write_burst(settings, &packet, sink) {
                Ok(()) => Ok(1),
                Err(fault) => Err(fault),
            },
        }
    }

    /// Decides on all slots that wait, which are followed by silence, writes their packets, and answers how many that are.
    pub(crate) fn finish<K: Sink>(
        &mut self,
        settings: &ExportSettings,
        sink: &mut K,
    ) -> Result<u32, RecordFault>
        requires well { K.has_failed sink.old ≡ false }
        requires room { self.old.streams.slots + length self.old.waiting ≤ 2097164 }
        requires names { self.old.streams.names ≤ self.old.streams.slots }
        ensures written { IfOk result (λ count. (more : List declared.BurstPacket) × (count ≡ length more)
            × spec.AreMoreWritten settings.now self.old (replicate 8 None) more self.new (K.held sink.old) (K.held sink.new)) }
        ensures few { IfOk result (λ count. count ≤ 8) }
        ensures well { OnOk result (K.has_failed sink.new ≡ false) }
        ensures torn { OnErr result (spec.IsRestTorn settings.now self.old (K.held sink.old) (K.held sink.new)) }
        ensures failed { OnErr result (K.has_failed sink.new ≡ true) }
    {
        let mut written = 0;
        for _past in 0..8u8 {
            match self.take(settings, None, sink) {
                Ok(count) => written += count,
                Err(fault) => return Err(fault),
            }
        }
        Ok(written)
    }
}
