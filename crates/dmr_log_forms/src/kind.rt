//! What a transmission is called.
ghost use Rattle.std.specs.Prelude.{◌≡◌, ◌≤◌, IfSome, length, option_map};
ghost use Rattle.dmr_log_forms.specs.Kinds as spec;

use dmr_data::{Header, Response};
use dmr_link::{FullLc, GROUP_CALL, UNIT_TO_UNIT_CALL};
use dmr_listing::{DataTypeName, LinkControlName};
use dmr_log::{ControlKind, PacketHead, Subject};
use dmr_record::ReceivedKind;
use std::fmt;

/// What the line of a transmission, or of a received record, begins with.
#[derive(Clone, Copy, Debug, PartialEq, Eq, Drop)]
pub enum EntryKind {
    /// A call to a talk group.
    GroupCall,
    /// A call to a radio.
    UnitCall,
    /// A call of which no link control is known.
    UnknownCall,
    /// A call whose link control has this opcode, which is no call's.
    OtherCall(u8),
    /// A packet that isn't confirmed.
    UnconfirmedData,
    /// A confirmed packet.
    ConfirmedData,
    /// Some blocks of a confirmed packet, again.
    PartialTry,
    /// Defined short data.
    ShortData,
    /// A status.
    Status,
    /// An answer that acknowledges a packet.
    Ack,
    /// An answer by which a packet failed.
    Failed,
    /// An answer that asks for some blocks again.
    SelectiveRepeat,
    /// Any other answer.
    Response,
    /// A packet whose header has a format that isn't read.
    OtherData,
    /// A preamble.
    Preamble,
    /// A radio asks a base station to transmit.
    Activation,
    /// Any other control signalling block.
    Csbk,
    /// Any other data burst, by its data type.
    DataType(u8),
    /// A record that a gateway received.
    Received(ReceivedKind),
}

/// What a call is called, by the link control that is known of it. ETSI TS 102 361-2, clause 7.1.1.
fn of_call(link_control: &Option<FullLc>) -> EntryKind
    ensures value { result ≡ spec.kind_of_call link_control.now }
{
    match link_control {
        None => EntryKind::UnknownCall,
        Some(lc) => match lc.flco {
            GROUP_CALL => EntryKind::GroupCall,
            UNIT_TO_UNIT_CALL => EntryKind::UnitCall,
            flco => EntryKind::OtherCall(flco),
        },
    }
}

/// What an answer is called, by its class and type. ETSI TS 102 361-1, clause 8.2.1.
fn of_response(response: &Response) -> EntryKind
    ensures value { result ≡ spec.kind_of_response response.now }
{
    match (response.class, response.kind) {
        (0, 1) => EntryKind::Ack,
        (1, _) => EntryKind::Failed,
        (2, 0) => EntryKind::SelectiveRepeat,
        _ => EntryKind::Response,
    }
}

/// What a packet is called, by its header.
fn of_packet(head: &PacketHead) -> EntryKind
    ensures value { result ≡ spec.kind_of_packet head.now }
{
    match head {
        PacketHead::Known(Header::Response(response)) => of_response(response),
        PacketHead::Known(Header::Unconfirmed(_)) => EntryKind::UnconfirmedData,
        PacketHead::Known(Header::Confirmed(header)) if header.full => EntryKind::ConfirmedData,
        PacketHead::Known(Header::Confirmed(_)) => EntryKind::PartialTry,
        PacketHead::Known(Header::ShortData(_)) => EntryKind::ShortData,
        PacketHead::Known(Header::Status(_)) => EntryKind::Status,
        PacketHead::Other(_) => EntryKind::OtherData,
    }
}

/// What control blocks are called.
fn of_controls(kind: &ControlKind) -> EntryKind
    ensures value { result ≡ spec.kind_of_controls kind.now }
{
    match kind {
        ControlKind::Preamble { .. } => EntryKind::Preamble,
        ControlKind::Activation { .. } => EntryKind::Activation,
        ControlKind::Csbk { .. } => EntryKind::Csbk,
        ControlKind::DataType(data_type) => EntryKind::DataType(*data_type),
    }
}

impl EntryKind {
    /// What a transmission is called.
    pub(crate) fn of_subject(subject: &Subject) -> EntryKind
        ensures value { result ≡ spec.subject_kind subject.now }
    {
        match subject {
            Subject::Call(call) => of_call(&call.link_control),
            Subject::Packet(packet) => of_packet(&packet.head),
            Subject::Controls(kind) => of_controls(kind),
        }
    }

    /// What a table calls it: each control signalling block is a CSBK there.
    pub(crate) fn in_table(self) -> EntryKind
        ensures value { result ≡ spec.in_table self }
    {
        match self {
            EntryKind::Preamble | EntryKind::Activation => EntryKind::Csbk,
            kind => kind,
        }
    }

    /// Its name, where that hangs on no number.
    pub(crate) fn name(self) -> Option<&'static str>
        ensures name { option_map (λ name. name.now) result ≡ spec.kind_name self }
        ensures short { IfSome result (λ name. length name.now ≤ 40) }
    {
        match self {
            EntryKind::GroupCall => Some("group call"),
            EntryKind::UnitCall => Some("unit call"),
            EntryKind::UnknownCall => Some("call"),
            EntryKind::UnconfirmedData => Some("unconfirmed data"),
            EntryKind::ConfirmedData => Some("confirmed data"),
            EntryKind::PartialTry => Some("partial try"),
            EntryKind::ShortData => Some("short data"),
            EntryKind::Status => Some("status"),
            EntryKind::Ack => Some("ACK"),
            EntryKind::Failed => Some("failed"),
            EntryKind::SelectiveRepeat => Some("selective repeat"),
            EntryKind::Response => Some("response"),
            EntryKind::OtherData => Some("data"),
            EntryKind::Preamble => Some("preamble"),
            EntryKind::Activation => Some("BS activation"),
            EntryKind::Csbk => Some("CSBK"),
            EntryKind::Received(ReceivedKind::Datagram) => Some("received datagram"),
            EntryKind::Received(ReceivedKind::ShortData) => Some("received short data"),
            EntryKind::Received(ReceivedKind::Status) => Some("received status"),
            EntryKind::OtherCall(_) | EntryKind::DataType(_) => None,
        }
    }
}

impl fmt::Display for EntryKind {
    fn fmt<W: fmt::Write>(&self, f: &mut fmt::Formatter<W>) -> fmt::Result {
        match *self {
            EntryKind::OtherCall(flco) => write!(f, "{}", LinkControlName(flco)),
            EntryKind::DataType(data_type) => write!(f, "{}", DataTypeName(data_type)),
            kind => write!(f, "{}", kind.name().unwrap_or_default()),
        }
    }
}
