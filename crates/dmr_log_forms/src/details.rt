//! What else tells packets and control blocks apart.
use dmr_csbk::PREAMBLE;
use dmr_data::Header;
use dmr_log::{ControlKind, PacketHead};
use std::fmt;

/// The opcode by which a radio asks a base station to transmit. ETSI TS 102 361-2, clause 7.1.2.
const ACTIVATION: u8 = 56;

/// The feature set of the standard's own blocks. ETSI TS 102 361-1, clause 9.3.13.
const STANDARD: u8 = 0;

/// What a header says beside what it is of, and from whom to whom: service access point and number, or ports and a status.
#[derive(Clone, Copy, Drop)]
pub(crate) struct HeaderDetails<'a>(pub(crate) &'a PacketHead);

impl fmt::Display for HeaderDetails<'_> {
    fn fmt<W: fmt::Write>(&self, f: &mut fmt::Formatter<W>) -> fmt::Result {
        match self.0 {
            PacketHead::Known(Header::Response(header)) => write!(f, "N(S) {}", header.status),
            PacketHead::Known(Header::Unconfirmed(header)) => write!(f, "SAP {}", header.sap),
            PacketHead::Known(Header::Confirmed(header)) => {
                write!(f, "SAP {}, N(S) {}", header.sap, header.number)
            }
            PacketHead::Known(Header::Status(status)) => write!(
                f,
                "port {} -> {}, status {}",
                status.source_port, status.destination_port, status.status
            ),
            PacketHead::Known(Header::ShortData(_)) | PacketHead::Other(_) => Ok(()),
        }
    }
}

/// Opcode and feature set of control signalling blocks; nothing of other data bursts.
#[derive(Clone, Copy, Drop)]
pub(crate) struct BlockDetails(pub(crate) ControlKind);

impl fmt::Display for BlockDetails {
    fn fmt<W: fmt::Write>(&self, f: &mut fmt::Formatter<W>) -> fmt::Result {
        let (opcode, feature_set) = match self.0 {
            ControlKind::Preamble { .. } => (PREAMBLE, STANDARD),
            ControlKind::Activation { .. } => (ACTIVATION, STANDARD),
            ControlKind::Csbk {
                opcode,
                feature_set,
            } => (opcode, feature_set),
            ControlKind::DataType(_) => return Ok(()),
        };
        write!(f, "opcode {opcode}, fid {feature_set}")
    }
}
