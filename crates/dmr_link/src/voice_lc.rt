//! What the body means where the opcode is a voice call's.
ghost use Rattle.std.specs.Prelude.{◌≡◌, ◌↔◌, IsSome, IfSome};
ghost use Rattle.dmr_bits.specs.Bits.{number_of, part, bits_of_octets};
ghost use Rattle.dmr_link.specs.Voice.{flco_of, IsVoice};

use crate::full_lc::FullLc;
use crate::service_options::ServiceOptions;
use dmr_bits::Bits;

/// The opcode of Grp_V_Ch_Usr, a voice call to a talk group (ETSI TS 102 361-2, clause 7.1.1.1).
pub const GROUP_CALL: u8 = 0;

/// The opcode of UU_V_Ch_Usr, a voice call to a radio (ETSI TS 102 361-2, clause 7.1.1.2).
pub const UNIT_TO_UNIT_CALL: u8 = 3;

/// Whom a voice call is for.
#[derive(Clone, Copy, Debug, PartialEq, Eq, Drop)]
pub enum CallKind {
    /// A talk group.
    Group,
    /// A radio.
    UnitToUnit,
}

/// The link control of a voice call. ETSI TS 102 361-2, clause 7.1.1.
#[derive(Clone, Copy, Debug, PartialEq, Eq)]
pub struct VoiceLc {
    /// Whether the target is a talk group or a radio.
    pub kind: CallKind,
    /// The service options.
    pub options: ServiceOptions,
    /// For whom the call is, an address of 24 bits.
    pub target: u32,
    /// The radio that calls, an address of 24 bits.
    pub source: u32,
}

impl FullLc {
    /// The body as a voice call, where the opcode says so. It tests the opcode alone.
    pub fn voice(&self) -> Option<VoiceLc>
        ensures opcode { IsSome result ↔ IsVoice self.now }
        ensures kind { IfSome result (λ voice. self.now.flco ≡ flco_of voice.kind) }
        ensures options { IfSome result (λ voice. voice.options.0 ≡ number_of (part (bits_of_octets self.now.body) 0 8)) }
        ensures target { IfSome result (λ voice. voice.target ≡ number_of (part (bits_of_octets self.now.body) 8 32)) }
        ensures source { IfSome result (λ voice. voice.source ≡ number_of (part (bits_of_octets self.now.body) 32 56)) }
    {
        let kind = match self.flco {
            GROUP_CALL => CallKind::Group,
            UNIT_TO_UNIT_CALL => CallKind::UnitToUnit,
            _ => return None,
        };
        let body = Bits::<56>::from_octets(&self.body);
        Some(VoiceLc {
            kind,
            options: ServiceOptions(body.field(0, 8) as u8),
            target: body.field(8, 24) as u32,
            source: body.field(32, 24) as u32,
        })
    }
}
