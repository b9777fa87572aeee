//! What the channel announces of a slot.
ghost use Rattle.std.specs.Prelude.{◌≡◌, IfSome, IfNone};
ghost use Rattle.dmr_bits.specs.Bits.{bits_of_octets};
ghost use Rattle.dmr_burst.specs.Cach.{tact_field};
ghost use Rattle.dmr_listing.specs.AccessType.{AnnouncesAccessType, IsNearTact, IsTact};

use dmr_bits::{Bits, Writer};
use dmr_codes::{BlockCode, Hamming7};

/// Whether the CACH before a downlink burst announces the channel as busy, by its bit AT. ETSI TS 102 361-1, clause 9.1.4.
#[derive(Clone, Copy, Drop)]
pub enum AccessType {
    /// AT is 1.
    Busy,
    /// AT is 0.
    Free,
}

/// The seven bits that hold AT, TC and LCSS. ETSI TS 102 361-1, annex B.4.1.
fn tact_bits(cach: &[u8; 3]) -> Bits<7>
    ensures value { result ≡ tact_field (bits_of_octets cach.now) }
{
    let bits = Bits::<24>::from_octets(cach);
    let mut field = Writer::<7>::new();
    field.push_bit(bits.get(0));
    field.push_bit(bits.get(4));
    field.push_bit(bits.get(8));
    field.push_bit(bits.get(12));
    field.push_bit(bits.get(14));
    field.push_bit(bits.get(18));
    field.push_bit(bits.get(22));
    field.finish()
}

/// The fields of a CACH. ETSI TS 102 361-1, clause 9.1.4.
#[derive(Clone, Copy, Drop)]
pub struct Tact {
    /// AT: the channel is busy.
    pub at: bool,
    /// TC: the slot that follows is slot 2.
    pub tc: bool,
    /// LCSS, which part of a Short LC the CACH carries: 0 to 3.
    pub lcss: u8,
}

/// The fields of a CACH, a wrong bit of the seven undone; none where the seven are further from every word, which no seven bits
/// are. ETSI TS 102 361-1, clause 9.1.4.
pub fn read_tact(cach: &[u8; 3]) -> Option<Tact>
    ensures read { IfSome result (λ tact. IsTact (bits_of_octets cach.now) tact) }
    ensures none { IfNone result (IsNearTact (bits_of_octets cach.now) → ⊥) }
{
    let word = Hamming7::decode(&tact_bits(cach))?;
    Some(Tact {
        at: word.get(0),
        tc: word.get(1),
        lcss: word.field(2, 2) as u8,
    })
}

impl AccessType {
    /// What a CACH announces, a wrong bit of the seven undone.
    pub(crate) fn of_cach(cach: &[u8; 3]) -> AccessType
        ensures read { AnnouncesAccessType (bits_of_octets cach.now) result }
    {
        match Hamming7::decode(&tact_bits(cach)) {
            Some(word) if word.get(0) => AccessType::Busy,
            _ => AccessType::Free,
        }
    }
}
