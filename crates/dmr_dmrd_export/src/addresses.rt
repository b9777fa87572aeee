//! The addresses of a stream.
ghost use Rattle.std.specs.Prelude.{◌≡◌};
ghost use Rattle.dmr_dmrd_export.specs.StreamAddresses as spec;

use dmr_link::{CallKind, FullLc};
use dmr_listing::Way;
use dmr_log::{ControlKind, Subject};

/// The addresses that the packets of a stream have: zeros where they aren't known.
#[derive(Clone, Copy, Drop)]
pub(crate) struct Addresses {
    /// Who sends, in 24 bits.
    pub(crate) source: u32,
    /// To whom, in 24 bits.
    pub(crate) target: u32,
    /// The target is no talk group.
    pub(crate) is_to_unit: bool,
}

impl Addresses {
    /// None is known.
    pub(crate) const UNKNOWN: Addresses = Addresses {
        source: 0,
        target: 0,
        is_to_unit: false,
    };

    /// Those of a way.
    fn of_way(way: Way) -> Addresses
        ensures value { result ≡ spec.way_addresses way }
    {
        Addresses {
            source: way.source,
            target: way.destination,
            is_to_unit: !way.to_group,
        }
    }

    /// Those of a link control, where it is a voice call's.
    fn of_link_control(link_control: &FullLc) -> Addresses
        ensures value { result ≡ spec.call_addresses link_control.now }
    {
        match link_control.voice() {
            Some(call) => Addresses {
                source: call.source,
                target: call.target,
                is_to_unit: matches!(call.kind, CallKind::UnitToUnit),
            },
            None => Addresses::UNKNOWN,
        }
    }

    /// Those of a call, by the link control that is known of it.
    fn of_call(link_control: Option<FullLc>) -> Addresses
        ensures value { result ≡ spec.known_addresses link_control }
    {
        match link_control {
            Some(link_control) => Addresses::of_link_control(&link_control),
            None => Addresses::UNKNOWN,
        }
    }

    /// Those of control blocks in a row.
    fn of_controls(kind: ControlKind) -> Addresses
        ensures value { result ≡ spec.control_addresses kind }
    {
        match kind {
            ControlKind::Preamble {
                source,
                to_group,
                destination,
            } => Addresses {
                source,
                target: destination,
                is_to_unit: !to_group,
            },
            ControlKind::Activation {
                source,
                base_station,
            } => Addresses {
                source,
                target: base_station,
                is_to_unit: true,
            },
            ControlKind::Csbk { .. } | ControlKind::DataType(_) => Addresses::UNKNOWN,
        }
    }

    /// Those of a transmission in its first frame, behind which four frames carry this link control.
    pub(crate) fn of_first(subject: &Subject, carried: Option<FullLc>) -> Addresses
        ensures value { result ≡ spec.first_addresses subject.now carried }
    {
        match subject {
            Subject::Call(call) => Addresses::of_call(call.link_control.or(carried)),
            Subject::Packet(packet) => Addresses::of_way(packet.head.way()),
            Subject::Controls(kind) => Addresses::of_controls(*kind),
        }
    }
}
