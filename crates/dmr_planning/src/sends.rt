//! The records of the outgoing list.
ghost use Rattle.std.specs.Prelude.{◌≡◌, ◌≤◌, ◌<◌, ◌^◌, true, false, All, IfErr, OnOk, OnErr, [], ◌∷◌, length, option_copied};
ghost use Rattle.std.specs.Io.KnownBytes.{Appends};
ghost use Rattle.dmr_planning.specs.Planning as planning;
ghost use Rattle.dmr_planning.specs.Plans.{HasSlot};
ghost use Rattle.dmr_planning.specs.Sending as spec;
ghost use Rattle.dmr_record.specs.Devices.{Tears};
ghost use Rattle.dmr_record.specs.Outgoing.{outgoing_file, sending_octets, sendings_octets};
ghost use Rattle.dmr_record.specs.Received.{IsSlot};
ghost use Rattle.dmr_script.specs.Fits.{FitsNumbered, FitsSending};

use crate::udp::udp_datagram;
use dmr_data::Rate;
use dmr_record::{OUTGOING_MAGIC, RECORD_LIMIT, RecordFault, Sink, write_head, write_outgoing};
use dmr_script::{Datagram, NumberedStatement, Send, Slot, Statement};

/// A record of the outgoing list.
#[derive(Clone, Copy, Debug, Drop, PartialEq, Eq)]
pub struct PlannedSend {
    /// Which statement of the script says it, counted from 0.
    pub statement: usize,
    /// The slot that it is sent in: 1 or 2.
    pub slot: u8,
    /// The downlink frame in which it is offered.
    pub frame: u32,
}

/// The number of a slot.
pub(crate) fn number_of_slot(slot: Slot) -> u8
    ensures value { result ≡ planning.number_of_slot slot }
{
    match slot {
        Slot::One => 1,
        Slot::Two => 2,
    }
}

/// Whether so many records are as many as an outgoing list has at most.
pub(crate) fn is_full(sends: &[PlannedSend]) -> bool
    ensures yes { result ≡ true → 1048576 ≤ length sends.now }
    ensures no { result ≡ false → length sends.now < 1048576 }
{
    sends.len() >= RECORD_LIMIT as usize
}

/// Whether a datagram is sent at rate 1.
fn is_full_rate(rate: Rate) -> bool
    ensures value { result ≡ spec.is_full_rate rate }
{
    match rate {
        Rate::Half => false,
        Rate::Full => true,
    }
}

/// Writes a record of the outgoing list with these octets.
fn write_octets<K: Sink>(
    planned: PlannedSend,
    send: &Send,
    octets: &[u8],
    sink: &mut K,
) -> Result<(), RecordFault>
    requires well { K.has_failed sink.old ≡ false }
    requires slot { IsSlot planned.slot }
    requires octets { octets.now ≡ spec.datagram_octets send.now.datagram }
    requires short { length octets.now < 2 ^ 16 }
    ensures sending { OnOk result (Appends (K.held sink.old) (K.held sink.new)
        (sending_octets (spec.record_of planned send.now))) }
    ensures well { OnOk result (K.has_failed sink.new ≡ false) }
    ensures fault { IfErr result (λ e. e ≡ RecordFault.Write) }
    ensures failed { OnErr result (K.has_failed sink.new ≡ true) }
    ensures torn { OnErr result (Tears (K.held sink.old) (K.held sink.new) (sending_octets (spec.record_of planned send.now))) }
{
    let full = is_full_rate(send.rate);
    write_outgoing(
        sink,
        planned.frame,
        planned.slot,
        send.confirmed,
        full,
        octets,
    )
}

/// Writes a record of the outgoing list.
fn write_send<K: Sink>(planned: PlannedSend, send: &Send, sink: &mut K) -> Result<(), RecordFault>
    requires well { K.has_failed sink.old ≡ false }
    requires slot { IsSlot planned.slot }
    requires fit { FitsSending send.now.datagram }
    ensures sending { OnOk result (Appends (K.held sink.old) (K.held sink.new)
        (sending_octets (spec.record_of planned send.now))) }
    ensures well { OnOk result (K.has_failed sink.new ≡ false) }
    ensures fault { IfErr result (λ e. e ≡ RecordFault.Write) }
    ensures failed { OnErr result (K.has_failed sink.new ≡ true) }
    ensures torn { OnErr result (Tears (K.held sink.old) (K.held sink.new) (sending_octets (spec.record_of planned send.now))) }
{
    match &send.datagram {
        Datagram::Octets(octets) => write_octets(planned, send, octets, sink),
        Datagram::Udp(addressed) => {
            let datagram = udp_datagram(addressed);
            write_octets(planned, send, datagram.as_slice(), sink)
        }
    }
}

/// The record that the statement with this number says.
fn send_in(statements: &[NumberedStatement], at: usize) -> Option<&Send>
    ensures value { option_copied result ≡ spec.send_in statements.now at }
{
    let numbered = statements.get(at)?;
    match &numbered.statement {
        Statement::Send(send) => Some(send),
        _ => None,
    }
}

/// Writes the record that a statement says, where it says one.
fn write_record<K: Sink>(
    statements: &[NumberedStatement],
    planned: PlannedSend,
    sink: &mut K,
) -> Result<(), RecordFault>
    requires well { K.has_failed sink.old ≡ false }
    requires statements { All FitsNumbered statements.now }
    requires slot { HasSlot planned }
    ensures record_is { OnOk result (Appends (K.held sink.old) (K.held sink.new)
        (sendings_octets (spec.said_records statements.now planned))) }
    ensures well { OnOk result (K.has_failed sink.new ≡ false) }
    ensures fault { IfErr result (λ e. e ≡ RecordFault.Write) }
    ensures failed { OnErr result (K.has_failed sink.new ≡ true) }
    ensures torn { OnErr result (Tears (K.held sink.old) (K.held sink.new)
        (sendings_octets (spec.said_records statements.now planned))) }
{
    match send_in(statements, planned.statement) {
        None => Ok(()),
        Some(send) => write_send(planned, send, sink),
    }
}

/// Writes these records of a script.
fn write_records<K: Sink>(
    statements: &[NumberedStatement],
    sends: &[PlannedSend],
    sink: &mut K,
) -> Result<(), RecordFault>
    requires well { K.has_failed sink.old ≡ false }
    requires statements { All FitsNumbered statements.now }
    requires slots { All HasSlot sends.now }
    ensures records { OnOk result (Appends (K.held sink.old) (K.held sink.new)
        (sendings_octets (spec.planned_sendings statements.now sends.now))) }
    ensures well { OnOk result (K.has_failed sink.new ≡ false) }
    ensures fault { IfErr result (λ e. e ≡ RecordFault.Write) }
    ensures failed { OnErr result (K.has_failed sink.new ≡ true) }
    ensures torn { OnErr result (Tears (K.held sink.old) (K.held sink.new)
        (sendings_octets (spec.planned_sendings statements.now sends.now))) }
{
    for planned in sends {
        write_record(statements, *planned, sink)?;
    }
    Ok(())
}

/// Writes the outgoing list of these records of a script.
pub(crate) fn write_sends<K: Sink>(
    statements: &[NumberedStatement],
    sends: &[PlannedSend],
    sink: &mut K,
) -> Result<(), RecordFault>
    requires well { K.has_failed sink.old ≡ false }
    requires statements { All FitsNumbered statements.now }
    requires slots { All HasSlot sends.now }
    ensures list { OnOk result (Appends (K.held sink.old) (K.held sink.new)
        (outgoing_file (spec.planned_sendings statements.now sends.now))) }
    ensures well { OnOk result (K.has_failed sink.new ≡ false) }
    ensures fault { IfErr result (λ e. e ≡ RecordFault.Write) }
    ensures failed { OnErr result (K.has_failed sink.new ≡ true) }
    ensures torn { OnErr result (Tears (K.held sink.old) (K.held sink.new)
        (outgoing_file (spec.planned_sendings statements.now sends.now))) }
{
    write_head(sink, OUTGOING_MAGIC)?;
    write_records(statements, sends, sink)
}
