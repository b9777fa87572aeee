//! The recording of what is held, written.
ghost use Rattle.std.specs.Prelude.{◌≡◌, ◌≤◌, ◌∷◌, [], max, length, false, true, OnOk, OnErr};
ghost use Rattle.std.specs.Io.KnownBytes.{Appends};
ghost use Rattle.dmr_record.specs.Devices.{Tears};
ghost use Rattle.dmr_record.specs.Uplink.{frame_octets, frames_octets, uplink_file};
ghost use Rattle.dmr_dmrd.specs.Holding.{first_frames, slot_in};

use dmr_record::{RecordFault, Sink, UPLINK_MAGIC, write_head, write_uplink_slot};

/// The slot of a frame: silence past the end of what is held.
fn slot_in(line: &[Option<[u8; 33]>], frame: usize) -> Option<[u8; 33]>
    ensures value { result ≡ slot_in line.now frame }
{
    match line.get(frame) {
        Some(slot) => *slot,
        None => None,
    }
}

/// Writes both slots of a frame.
fn write_frame<K: Sink>(
    sink: &mut K,
    one: Option<[u8; 33]>,
    two: Option<[u8; 33]>,
) -> Result<(), RecordFault>
    requires well { K.has_failed sink.old ≡ false }
    ensures frame { OnOk result (Appends (K.held sink.old) (K.held sink.new) (frame_octets (one ∷ two ∷ []))) }
    ensures well { OnOk result (K.has_failed sink.new ≡ false) }
    ensures failed { OnErr result (K.has_failed sink.new ≡ true) }
    ensures torn { OnErr result (Tears (K.held sink.old) (K.held sink.new) (frame_octets (one ∷ two ∷ []))) }
{
    if let Err(fault) = write_uplink_slot(sink, one) {
        return Err(fault);
    }
    write_uplink_slot(sink, two)
}

/// Writes the frames of two slots.
fn write_frames<K: Sink>(
    sink: &mut K,
    one: &[Option<[u8; 33]>],
    two: &[Option<[u8; 33]>],
) -> Result<(), RecordFault>
    requires well { K.has_failed sink.old ≡ false }
    ensures frames { OnOk result (Appends (K.held sink.old) (K.held sink.new)
        (frames_octets (first_frames one.now two.now (max (length one.now) (length two.now))))) }
    ensures well { OnOk result (K.has_failed sink.new ≡ false) }
    ensures failed { OnErr result (K.has_failed sink.new ≡ true) }
    ensures torn { OnErr result (Tears (K.held sink.old) (K.held sink.new)
        (frames_octets (first_frames one.now two.now (max (length one.now) (length two.now))))) }
{
    for frame in 0..one.len().max(two.len()) {
        if let Err(fault) = write_frame(sink, slot_in(one, frame), slot_in(two, frame)) {
            return Err(fault);
        }
    }
    Ok(())
}

/// Writes the recording of two slots, head and all. At an `Err` the sink failed with a front of it out.
pub(crate) fn write_recording<K: Sink>(
    sink: &mut K,
    one: &[Option<[u8; 33]>],
    two: &[Option<[u8; 33]>],
) -> Result<(), RecordFault>
    requires well { K.has_failed sink.old ≡ false }
    ensures file { OnOk result (Appends (K.held sink.old) (K.held sink.new)
        (uplink_file (first_frames one.now two.now (max (length one.now) (length two.now))))) }
    ensures well { OnOk result (K.has_failed sink.new ≡ false) }
    ensures failed { OnErr result (K.has_failed sink.new ≡ true) }
    ensures torn { OnErr result (Tears (K.held sink.old) (K.held sink.new)
        (uplink_file (first_frames one.now two.now (max (length one.now) (length two.now))))) }
{
    if let Err(fault) = write_head(sink, UPLINK_MAGIC) {
        return Err(fault);
    }
    write_frames(sink, one, two)
}
